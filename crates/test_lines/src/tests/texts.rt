//! The tokens of texts.
use eb_base::NoMemory;
use eb_text::tokens;
use std::alloc::Global;
use std::test::Fail;

// The tokens of the text, each with a bar after it.
fn barred(alloc: Global, text: &str) -> Result<Vec<u8>, NoMemory> {
    let mut bytes = Vec::new(alloc);
    for term in tokens(alloc, text)?.as_slice() {
        bytes.extend_from_slice(term.bytes())?;
        bytes.push(b'|')?;
    }
    Ok(bytes)
}

// Texts, and their tokens.
const TEXTS: [(&str, &str); 14] = [
    (
        "Sunset over the Straße tonight",
        "sunset|over|the|strasse|tonight|",
    ),
    ("can't believe it's", "can't|believe|it's|"),
    ("#spring @Lena, rain", "spring|lena|rain|"),
    ("!!!", ""),
    ("", ""),
    ("ΣΑΣ σας", "σασ|σασ|"),
    ("foo.bar 3.14 e-mail", "foo.bar|3.14|e|mail|"),
    (" rain  over   Wien ", "rain|over|wien|"),
    ("Rain, rain. 3 7a 2,5", "rain|rain|3|7a|2,5|"),
    ("a _b c_ d", "a|_b|c_|d|"),
    ("Straße 12 ÖBB", "strasse|12|öbb|"),
    ("tab\tand\nline feed", "tab|and|line|feed|"),
    ("x\u{2003} y", "x|y|"),
    // a mark that is a letter is combined with the space before it, and folds to an iota
    ("snow \u{345}fall", "snow| \u{3b9}|fall|"),
];

#[test]
fn cuts_and_folds(rt: HostRuntime) -> Result<(), Fail> {
    for (text, want) in TEXTS {
        assert_eq!(rt;
            barred(rt.alloc(), text)?.as_slice(),
            want.as_bytes(),
            "{text}"
        );
    }
    Ok(())
}
