// RFC 5646: examples of sections 2.1.1 and 2.2 and of appendix A. They were written without a copy of the RFC at hand.
use crate::{Tally, held};

pub(crate) fn run(rt: &impl Print, t: Tally) -> Tally {
    let languages = languages(rt, t);
    let variants = variants(rt, languages);
    let opened = opened(rt, variants);
    let cased = cased(rt, opened);
    let listed = listed(rt, cased);
    let refused = refused(rt, listed);
    allowed(rt, refused)
}

fn good(rt: &impl Print, t: Tally, tag: &[u8]) -> Tally {
    held(rt, t, text_langtags::is_well_formed_tag(tag))
}

fn bad(rt: &impl Print, t: Tally, tag: &[u8]) -> Tally {
    held(rt, t, !text_langtags::is_well_formed_tag(tag))
}

// Languages, extlangs, scripts and regions.
fn languages(rt: &impl Print, t: Tally) -> Tally {
    let mut n = t;
    n = good(rt, n, b"de");
    n = good(rt, n, b"fr");
    n = good(rt, n, b"ja");
    n = good(rt, n, b"zh-Hant");
    n = good(rt, n, b"zh-Hans");
    n = good(rt, n, b"sr-Cyrl");
    n = good(rt, n, b"sr-Latn");
    n = good(rt, n, b"zh-cmn-Hans-CN");
    n = good(rt, n, b"cmn-Hans-CN");
    n = good(rt, n, b"zh-yue-HK");
    n = good(rt, n, b"yue-HK");
    n = good(rt, n, b"zh-gan");
    n = good(rt, n, b"zh-Hans-CN");
    n = good(rt, n, b"sr-Latn-RS");
    n = good(rt, n, b"de-DE");
    n = good(rt, n, b"en-US");
    n = good(rt, n, b"es-419");
    n
}

// Variants.
fn variants(rt: &impl Print, t: Tally) -> Tally {
    let mut n = t;
    n = good(rt, n, b"sl-rozaj");
    n = good(rt, n, b"sl-rozaj-biske");
    n = good(rt, n, b"sl-rozaj-biske-1994");
    n = good(rt, n, b"sl-nedis");
    n = good(rt, n, b"de-1996");
    n = good(rt, n, b"de-CH-1901");
    n = good(rt, n, b"de-CH-1996");
    n = good(rt, n, b"sl-IT-nedis");
    n = good(rt, n, b"hy-Latn-IT-arevela");
    n
}

// Private use and extensions.
fn opened(rt: &impl Print, t: Tally) -> Tally {
    let mut n = t;
    n = good(rt, n, b"de-CH-x-phonebk");
    n = good(rt, n, b"az-Arab-x-AZE-derbend");
    n = good(rt, n, b"x-whatever");
    n = good(rt, n, b"qaa-Qaaa-QM-x-southern");
    n = good(rt, n, b"de-Qaaa");
    n = good(rt, n, b"sr-Latn-QM");
    n = good(rt, n, b"sr-Qaaa-RS");
    n = good(rt, n, b"en-US-u-islamcal");
    n = good(rt, n, b"zh-CN-a-myext-x-private");
    n = good(rt, n, b"en-a-myext-b-another");
    n = good(rt, n, b"en-a-bbb-x-a-ccc");
    n = good(rt, n, b"fr-a-Latn");
    n = good(rt, n, b"fr-Latn-FR");
    n
}

// Letter case.
fn cased(rt: &impl Print, t: Tally) -> Tally {
    let mut n = t;
    n = good(rt, n, b"mn-Cyrl-MN");
    n = good(rt, n, b"MN-cYRL-mn");
    n = good(rt, n, b"mN-cYrL-Mn");
    n = good(rt, n, b"az-Latn-x-latn");
    n = good(rt, n, b"AZ-latn-X-LATN");
    n = good(rt, n, b"en-CA-x-ca");
    n = good(rt, n, b"EN-ca-X-Ca");
    n = good(rt, n, b"sgn-BE-FR");
    n = good(rt, n, b"sgn-be-fr");
    n
}

// Tags that are listed whole.
fn listed(rt: &impl Print, t: Tally) -> Tally {
    let mut n = t;
    n = good(rt, n, b"i-enochian");
    n = good(rt, n, b"I-AMI");
    n = good(rt, n, b"i-klingon");
    n = good(rt, n, b"en-GB-oed");
    n = good(rt, n, b"sgn-CH-DE");
    n = good(rt, n, b"zh-min");
    n = good(rt, n, b"zh-min-nan");
    n = good(rt, n, b"art-lojban");
    n = bad(rt, n, b"i-amj");
    n = bad(rt, n, b"en-GB-oed-x-a");
    n
}

// What the RFC calls invalid. Two extensions of one singleton, and a variant that stands twice, are invalid too, and well-formed by the ABNF.
fn refused(rt: &impl Print, t: Tally) -> Tally {
    let mut n = t;
    n = bad(rt, n, b"de-419-DE");
    n = bad(rt, n, b"a-DE");
    n = bad(rt, n, b"tlh-a-b-foo");
    n = good(rt, n, b"ar-a-aaa-b-bbb-a-ccc");
    n = good(rt, n, b"en-a-bbb-a-ccc");
    n = good(rt, n, b"de-DE-1901-1901");
    n
}

// "The empty tag stays allowed", and of a quoted value the tag that it stands for.
fn allowed(rt: &impl Print, t: Tally) -> Tally {
    let mut n = t;
    n = bad(rt, n, b"");
    n = held(rt, n, text_langtags::is_allowed_tag(b""));
    n = held(rt, n, !text_langtags::is_allowed_tag(b"1"));
    n = held(rt, n, text_langtags::is_allowed_unescaped(b"en\\-GB"));
    n = held(rt, n, !text_langtags::is_allowed_unescaped(b"e\\n"));
    n
}
