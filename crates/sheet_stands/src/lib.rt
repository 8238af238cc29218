// Whether a record's line stands at a place of an index text.
#![tactic(auto)]

ghost use Rattle.std.specs.Prelude.{◌≡◌, ◌∷◌, [], ◌++◌, ◌≤◌, ◌<◌, length};
ghost use Rattle.base_lists.specs.Lists.{same};
ghost use Rattle.base_bytes.specs.Bytes.{lf};
ghost use Rattle.set_marks.specs.Marks.{bytes_in};
ghost use Rattle.sheet_records.specs.Records.{record_line, id_field};
ghost use Rattle.sheet_records.specs.Writing.{raw_id};
ghost use Rattle.sheet_stands.specs.Stands.{stands_at};

// Whether bytes are an id, quoted or not.
fn same_id<'a>(quoted: bool, raw: &'a [u8], bytes: &'a [u8]) -> bool
    ensures { result ≡ same (bytes_in quoted raw.now) bytes.now }
{
    if quoted {
        return text_escapes::same_unescaped(raw, bytes);
    }
    base_lists::same_bytes(raw, bytes)
}

// Whether an id and an LF stand at the place.
fn id_stands<'a>(index: &'a [u8], at: usize, quoted: bool, raw: &'a [u8]) -> bool
    requires { at ≤ length index.now }
    ensures { result ≡ stands_at index.now at (bytes_in quoted raw.now ++ (lf ∷ [])) }
{
    let m = sheet_records::id_len(quoted, raw);
    if index.len() - at <= m {
        return false;
    }
    if index[at + m] != b'\n' {
        return false;
    }
    same_id(quoted, raw, set_table::bytes_of(index, at, at + m))
}

// Whether the end of a line stands at the place: a tab and the id, where there is one, and an LF.
fn end_stands<'a>(index: &'a [u8], at: usize, given: bool, quoted: bool, raw: &'a [u8]) -> bool
    requires { at < length index.now }
    ensures { result ≡ stands_at index.now at (id_field (raw_id given quoted raw.now) ++ (lf ∷ [])) }
{
    if given {
        if index[at] != b'\t' {
            return false;
        }
        return id_stands(index, at + 1, quoted, raw);
    }
    index[at] == b'\n'
}

// Whether the line of a record stands at the place.
pub fn line_stands<'a>(
    index: &'a [u8],
    at: usize,
    line: usize,
    count: usize,
    offset: usize,
    given: bool,
    quoted: bool,
    raw: &'a [u8],
) -> bool
    ensures { result ≡ stands_at index.now at (record_line (record { line = line; count = count; offset = offset; id = raw_id given quoted raw.now })) }
{
    let mut front = [0u8; 63];
    sheet_records::put_record(&mut front, 0, line, count, offset, false, false, raw);
    let n = sheet_records::numbers_len(line, count, offset);
    if index.len() < at {
        return false;
    }
    if index.len() - at <= n {
        return false;
    }
    if !base_lists::same_bytes(
        set_table::bytes_of(&front, 0, n),
        set_table::bytes_of(index, at, at + n),
    ) {
        return false;
    }
    end_stands(index, at + n, given, quoted, raw)
}
