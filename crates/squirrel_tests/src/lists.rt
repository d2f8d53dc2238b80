// Lists and texts.
use sq_base::{Seq, Text};

#[test]
fn lists_and_texts_hold_what_was_put(rt: HostRuntime) {
    let alloc = rt.alloc();
    let mut list = Seq::from_slice(alloc, &[1u32, 2]).expect(&rt, "memory");
    list.push(3).expect(&rt, "memory");
    list.extend_from_slice(&[4, 5]).expect(&rt, "memory");
    assert_eq!(rt; list.as_slice(), &[1, 2, 3, 4, 5][..], "the list");
    let mut text = Text::from_str(alloc, "key").expect(&rt, "memory");
    text.reserve(9).expect(&rt, "memory");
    text.push_str("(i)").expect(&rt, "memory");
    let copy = text.copy(alloc).expect(&rt, "memory");
    assert!(rt; copy.is("key(i)"), "the text");
}
