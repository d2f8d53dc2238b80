// A tree as it is shown in a case file.
use std::alloc::{AllocError, Global};

/// The tree by its variants and their parts alone.
pub fn without_wrappers(alloc: Global, shown: String) -> Result<String, AllocError> {
    let mut plain = shown;
    for wrapper in [
        "Boxed { inner: ",
        "Text { string: ",
        "Seq { items: ",
        "Items { items: ",
        " }",
    ] {
        plain = without(alloc, plain.as_str(), wrapper)?;
    }
    Ok(plain)
}

// The text with every occurrence of another taken out.
fn without(alloc: Global, text: &str, other: &str) -> Result<String, AllocError> {
    let mut out = String::new(alloc);
    for piece in text.split(other) {
        out.push_str(piece)?;
    }
    Ok(out)
}
