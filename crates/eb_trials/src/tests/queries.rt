//! The texts of small queries.
use std::alloc::Global;
use std::test::Fail;

// The words that the queries ask for.
const WORDS: [&[u8]; 3] = [b"a", b"b", b"c"];

// Puts the text of these parts, with one blank between them, at the end.
fn put(alloc: Global, texts: &mut Vec<Vec<u8>>, parts: &[&[u8]]) -> Result<(), Fail> {
    let mut text = Vec::new(alloc);
    for part in parts {
        text.extend_from_slice(part)?;
        text.push(b' ')?;
    }
    texts.push(text)?;
    Ok(())
}

// Puts all phrases of two words.
fn put_phrases2(alloc: Global, texts: &mut Vec<Vec<u8>>) -> Result<(), Fail> {
    for first in WORDS {
        for second in WORDS {
            put(alloc, texts, &[b"\"", first, second, b"\""])?;
        }
    }
    Ok(())
}

// Puts all phrases of three words.
fn put_phrases3(alloc: Global, texts: &mut Vec<Vec<u8>>) -> Result<(), Fail> {
    for first in WORDS {
        for second in WORDS {
            for third in WORDS {
                put(alloc, texts, &[b"\"", first, second, third, b"\""])?;
            }
        }
    }
    Ok(())
}

// Puts all phrases of four words.
fn put_phrases4(alloc: Global, texts: &mut Vec<Vec<u8>>) -> Result<(), Fail> {
    for first in WORDS {
        for second in WORDS {
            for third in WORDS {
                for fourth in WORDS {
                    put(alloc, texts, &[b"\"", first, second, third, fourth, b"\""])?;
                }
            }
        }
    }
    Ok(())
}

// Puts the Not of each part.
fn put_nots(alloc: Global, texts: &mut Vec<Vec<u8>>, parts: &[Vec<u8>]) -> Result<(), Fail> {
    for part in parts {
        put(alloc, texts, &[part.as_slice(), b"-"])?;
    }
    Ok(())
}

// Puts the And and the Or of each two parts.
fn put_pairs(
    alloc: Global,
    texts: &mut Vec<Vec<u8>>,
    firsts: &[Vec<u8>],
    seconds: &[Vec<u8>],
) -> Result<(), Fail> {
    for first in firsts {
        for second in seconds {
            put(alloc, texts, &[first.as_slice(), second.as_slice(), b"&2"])?;
            put(alloc, texts, &[first.as_slice(), second.as_slice(), b"|2"])?;
        }
    }
    Ok(())
}

// Puts the And and the Or of each three words.
fn put_triples(alloc: Global, texts: &mut Vec<Vec<u8>>) -> Result<(), Fail> {
    for first in WORDS {
        for second in WORDS {
            for third in WORDS {
                put(alloc, texts, &[first, second, third, b"&3"])?;
                put(alloc, texts, &[first, second, third, b"|3"])?;
            }
        }
    }
    Ok(())
}

// All queries of size 1 over three words.
fn of_size1(alloc: Global) -> Result<Vec<Vec<u8>>, Fail> {
    let mut texts = Vec::new(alloc);
    for word in WORDS {
        put(alloc, &mut texts, &[word])?;
    }
    Ok(texts)
}

// All of size 2.
fn of_size2(alloc: Global) -> Result<Vec<Vec<u8>>, Fail> {
    let mut texts = Vec::new(alloc);
    put_phrases2(alloc, &mut texts)?;
    put_nots(alloc, &mut texts, of_size1(alloc)?.as_slice())?;
    Ok(texts)
}

// All of size 3.
fn of_size3(alloc: Global) -> Result<Vec<Vec<u8>>, Fail> {
    let words = of_size1(alloc)?;
    let mut texts = Vec::new(alloc);
    put_phrases3(alloc, &mut texts)?;
    put_nots(alloc, &mut texts, of_size2(alloc)?.as_slice())?;
    put_pairs(alloc, &mut texts, words.as_slice(), words.as_slice())?;
    Ok(texts)
}

// All of size 4.
fn of_size4(alloc: Global) -> Result<Vec<Vec<u8>>, Fail> {
    let words = of_size1(alloc)?;
    let pairs = of_size2(alloc)?;
    let mut texts = Vec::new(alloc);
    put_phrases4(alloc, &mut texts)?;
    put_nots(alloc, &mut texts, of_size3(alloc)?.as_slice())?;
    put_pairs(alloc, &mut texts, words.as_slice(), pairs.as_slice())?;
    put_pairs(alloc, &mut texts, pairs.as_slice(), words.as_slice())?;
    put_triples(alloc, &mut texts)?;
    Ok(texts)
}

// Puts all texts of the second list after the first.
fn put_all(texts: &mut Vec<Vec<u8>>, more: Vec<Vec<u8>>) -> Result<(), Fail> {
    for text in more {
        texts.push(text)?;
    }
    Ok(())
}

// The texts of all queries of sizes 1 to 4 over the words `a`, `b` and `c`.
pub(super) fn small_queries(alloc: Global) -> Result<Vec<Vec<u8>>, Fail> {
    let mut texts = of_size1(alloc)?;
    put_all(&mut texts, of_size2(alloc)?)?;
    put_all(&mut texts, of_size3(alloc)?)?;
    put_all(&mut texts, of_size4(alloc)?)?;
    Ok(texts)
}
