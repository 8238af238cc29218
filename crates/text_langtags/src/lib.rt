// Well-formed language tags by RFC 5646 section 2.1, letter case ignored: of bytes as they stand, or unescaped.
#![tactic(auto)]

ghost use Rattle.std.specs.Prelude.{◌≡◌, cond, ◌&&◌, eqb};
ghost use Rattle.text_escapes.specs.Unescape.{unescape};
ghost use Rattle.text_langtags.specs.Letters.{small, is_x};
ghost use Rattle.text_langtags.specs.Computed.{is_subtag, is_part, opened, began, continued, next_stage, may_end, is_well_formed, is_allowed};
ghost use Rattle.text_langtags.specs.Inner.{no_byte_yet, longer, subtag_with, shape_kind, is_spelled, spelled, is_word, tag_start, behind, stepped, well_formed_so_far, allowed_so_far};

// What a whole subtag is, by its length and its bytes.
#[derive(Clone, Copy)]
enum SubtagKind {
    Other,
    X,
    Single,
    Two,
    Three,
    Four,
    Long,
    Number,
    Variant,
    Plain,
}

// Where a tag stands behind a subtag. `Body` tells what may still come: 5, 4, 3 for three, two or one extlang, 2 for a script, 1 for a region, 0 for variants.
#[derive(Clone, Copy)]
enum Stage {
    Bad,
    Start,
    Body(u8),
    Single,
    Extension,
    Private,
    Own,
}

// The present subtag: how many bytes it has, with 9 for more than 8; whether it begins with x or a digit; whether all are letters, digits, or either.
#[derive(Clone, Copy)]
struct Shape {
    pub size: u8,
    pub x: bool,
    pub digit: bool,
    pub letters: bool,
    pub digits: bool,
    pub alnum: bool,
}

// A tag that is being read: the stage before the present subtag, that subtag, and the bytes so far as a number, while they are few.
#[derive(Clone, Copy)]
struct TagWalk {
    pub stage: Stage,
    pub shape: Shape,
    pub word: u64,
}

// ---- the present subtag

// The letter x, large or small.
fn is_x(b: u8) -> bool
    ensures { result ≡ is_x b }
{
    matches!(b, b'X' | b'x')
}

// One of two kinds.
fn either(t: bool, a: SubtagKind, b: SubtagKind) -> SubtagKind
    ensures { result ≡ cond t a b }
{
    if t {
        return a;
    }
    b
}

// The kind of a subtag.
fn kind_of(h: Shape) -> SubtagKind
    ensures { result ≡ shape_kind h }
{
    if !h.alnum {
        return SubtagKind::Other;
    }
    let size = h.size;
    match size {
        1 => either(h.x, SubtagKind::X, SubtagKind::Single),
        2 => either(h.letters, SubtagKind::Two, SubtagKind::Plain),
        3 => either(
            h.letters,
            SubtagKind::Three,
            either(h.digits, SubtagKind::Number, SubtagKind::Plain),
        ),
        4 => either(
            h.letters,
            SubtagKind::Four,
            either(h.digit, SubtagKind::Variant, SubtagKind::Plain),
        ),
        5..=8 => either(h.letters, SubtagKind::Long, SubtagKind::Variant),
        _ => SubtagKind::Other,
    }
}

// A subtag with no byte yet.
fn empty() -> Shape
    ensures { result ≡ no_byte_yet }
{
    Shape {
        size: 0,
        x: false,
        digit: false,
        letters: true,
        digits: true,
        alnum: true,
    }
}

fn both(a: bool, b: bool) -> bool
    ensures { result ≡ (a && b) }
{
    if a {
        return b;
    }
    false
}

// What the first byte said, which is b where there was none.
fn at_first(size: u8, b: bool, before: bool) -> bool
    ensures { result ≡ cond (eqb size 0) b before }
{
    if size == 0 {
        return b;
    }
    before
}

fn one_more(size: u8) -> u8
    ensures { result ≡ longer size }
{
    if 9 <= size {
        return 9;
    }
    size + 1
}

// The subtag with one more byte.
fn grow(h: Shape, b: u8) -> Shape
    ensures { result ≡ subtag_with h b }
{
    Shape {
        size: one_more(h.size),
        x: at_first(h.size, is_x(b), h.x),
        digit: at_first(h.size, base_letters::is_digit(b), h.digit),
        letters: both(h.letters, base_letters::is_letter(b)),
        digits: both(h.digits, base_letters::is_digit(b)),
        alnum: both(h.alnum, base_letters::is_alnum(b)),
    }
}

// ---- the stage behind a subtag

// Two to eight letters or digits.
fn is_part(k: SubtagKind) -> bool
    ensures { result ≡ is_part k }
{
    match k {
        SubtagKind::Other | SubtagKind::X | SubtagKind::Single => false,
        _ => true,
    }
}

// One to eight letters or digits.
fn is_subtag(k: SubtagKind) -> bool
    ensures { result ≡ is_subtag k }
{
    match k {
        SubtagKind::Other => false,
        _ => true,
    }
}

// A stage where the test passes, and no tag where it fails.
fn only(t: bool, a: Stage) -> Stage
    ensures { result ≡ cond t a Stage.Bad }
{
    if t {
        return a;
    }
    Stage::Bad
}

// What a subtag of one byte opens: private use, or an extension.
fn open_stage(k: SubtagKind) -> Stage
    ensures { result ≡ opened k }
{
    match k {
        SubtagKind::X => Stage::Private,
        SubtagKind::Single => Stage::Single,
        _ => Stage::Bad,
    }
}

// Behind the first subtag.
fn first_stage(k: SubtagKind) -> Stage
    ensures { result ≡ began k }
{
    match k {
        SubtagKind::X => Stage::Private,
        SubtagKind::Two | SubtagKind::Three => Stage::Body(5),
        SubtagKind::Four | SubtagKind::Long => Stage::Body(2),
        _ => Stage::Bad,
    }
}

// Behind an extlang.
fn behind_extlang(n: u8) -> Stage
    ensures { result ≡ continued n SubtagKind.Three }
{
    if n < 3 {
        return Stage::Bad;
    }
    Stage::Body(n - 1)
}

// Behind a subtag that follows the language.
fn body_stage(n: u8, k: SubtagKind) -> Stage
    ensures { result ≡ continued n k }
{
    match k {
        SubtagKind::Three => behind_extlang(n),
        SubtagKind::Four => only(2 <= n, Stage::Body(1)),
        SubtagKind::Two | SubtagKind::Number => only(1 <= n, Stage::Body(0)),
        SubtagKind::Long | SubtagKind::Variant => Stage::Body(0),
        _ => open_stage(k),
    }
}

// Behind a subtag that follows an extension's.
fn extension_stage(k: SubtagKind) -> Stage
    ensures { result ≡ next_stage Stage.Extension k }
{
    if is_part(k) {
        return Stage::Extension;
    }
    open_stage(k)
}

// Behind a subtag.
fn next_stage(st: Stage, k: SubtagKind) -> Stage
    ensures { result ≡ next_stage st k }
{
    match st {
        Stage::Bad => Stage::Bad,
        Stage::Start => first_stage(k),
        Stage::Body(n) => body_stage(n, k),
        Stage::Single => only(is_part(k), Stage::Extension),
        Stage::Extension => extension_stage(k),
        Stage::Private | Stage::Own => only(is_subtag(k), Stage::Own),
    }
}

// Whether a tag may end here.
fn may_end(st: Stage) -> bool
    ensures { result ≡ may_end st }
{
    matches!(st, Stage::Body(_) | Stage::Extension | Stage::Own)
}

// ---- the bytes as one number

// A large letter's small one, and any other byte itself.
fn lower(b: u8) -> u8
    ensures { result ≡ small b }
{
    if b < b'A' {
        return b;
    }
    if b'Z' < b {
        return b;
    }
    b + 32
}

// A letter, a digit or a hyphen.
fn is_spelled(b: u8) -> bool
    ensures { result ≡ is_spelled b }
{
    if base_letters::is_alnum(b) {
        return true;
    }
    b == b'-'
}

fn wide(b: u8) -> u64
    ensures { result ≡ b }
{
    b as u64
}

// The number with one more byte, or the greatest of all where it has ten or the byte is no byte of a tag.
fn spell(w: u64, b: u8) -> u64
    ensures { result ≡ spelled w b }
{
    if !is_spelled(b) {
        return 18446744073709551615;
    }
    if 208215748530929664 <= w {
        return 18446744073709551615;
    }
    let k = wide(lower(b));
    w * 84 + (k - 39)
}

// The numbers of the 17 irregular tags, from en-GB-oed to sgn-CH-DE, in the list's order.
fn is_word(w: u64) -> bool
    ensures { result ≡ is_word w }
{
    matches!(
        w,
        155780572333015957 // en-GB-oed
            | 3289922394 // i-ami
            | 3289929539 // i-bnn
            | 163796833982234705 // i-default
            | 13758966762955576751 // i-enochian
            | 3289970780 // i-hak
            | 163799322500260007 // i-klingon
            | 3290000697 // i-lux
            | 23214287527608 // i-mingo
            | 1950003940840356 // i-navajo
            | 3290029079 // i-pwn
            | 3290055456 // i-tao
            | 3290055466 // i-tay
            | 3290056974 // i-tsu
            | 190299225687434967 // sgn-BE-FR
            | 190299225687435633 // sgn-BE-NL
            | 190299225739000034 // sgn-CH-DE
    )
}

// ---- the walk

// Before the first byte.
fn start_tag() -> TagWalk
    ensures { result ≡ tag_start }
{
    TagWalk {
        stage: Stage::Start,
        shape: empty(),
        word: 0,
    }
}

// The stage behind the present subtag.
fn stage_behind(w: TagWalk) -> Stage
    ensures { result ≡ behind w }
{
    let st = w.stage;
    let h = w.shape;
    next_stage(st, kind_of(h))
}

// Behind one more byte.
fn step_tag(w: TagWalk, b: u8) -> TagWalk
    ensures { result ≡ stepped w b }
{
    let word = spell(w.word, b);
    if b == b'-' {
        return TagWalk {
            stage: stage_behind(w),
            shape: empty(),
            word,
        };
    }
    let st = w.stage;
    let h = w.shape;
    TagWalk {
        stage: st,
        shape: grow(h, b),
        word,
    }
}

// Whether the bytes so far are a well-formed tag.
fn accepts_tag(w: TagWalk) -> bool
    ensures { result ≡ well_formed_so_far w }
{
    if may_end(stage_behind(w)) {
        return true;
    }
    is_word(w.word)
}

// Whether there are no bytes so far, or they are a well-formed tag.
fn allows_tag(w: TagWalk) -> bool
    ensures { result ≡ allowed_so_far w }
{
    if w.word == 0 {
        return true;
    }
    accepts_tag(w)
}

// Whether the bytes are a well-formed tag.
pub fn is_well_formed_tag(s: &[u8]) -> bool
    ensures { result ≡ is_well_formed s.now }
{
    let mut w = start_tag();
    for b in s {
        w = step_tag(w, *b);
    }
    accepts_tag(w)
}

// Whether there are no bytes, which mean an unknown language, or they are a well-formed tag.
pub fn is_allowed_tag(s: &[u8]) -> bool
    ensures { result ≡ is_allowed s.now }
{
    if s.len() == 0 {
        return true;
    }
    is_well_formed_tag(s)
}

// The same of the bytes that a raw text stands for, which come one at a time.
pub fn is_allowed_unescaped(s: &[u8]) -> bool
    ensures { result ≡ is_allowed (unescape s.now) }
{
    let mut w = start_tag();
    let mut i = 0;
    // A loop: a byte that the text stands for is written with one byte or with several.
    'pieces: loop {
        match text_escapes::piece_at(s, i) {
            None => break 'pieces allows_tag(w),
            Some((b, next)) => {
                w = step_tag(w, b);
                i = next;
                continue 'pieces;
            }
        }
    }
}
