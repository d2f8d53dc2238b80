// The table of symbols.
use sq_sym::{SymFault, Symbol, Table};

#[test]
fn names_are_found_where_they_were_declared(rt: HostRuntime) {
    let alloc = rt.alloc();
    let mut table = Table::new(alloc);
    assert_eq!(rt; table.declare(alloc, "h", Symbol::Fun(14)), Ok(0), "first");
    assert_eq!(rt; table.declare(alloc, "k", Symbol::Name(0)), Ok(1), "second");
    assert_eq!(rt;
        table.declare(alloc, "h", Symbol::Channel),
        Err(SymFault::Twice),
        "twice"
    );
    assert_eq!(rt; table.find("h"), Some((0, Symbol::Fun(14))), "kept");
    assert_eq!(rt; table.find("m"), None, "absent");
    assert_eq!(rt; table.name_of(1), Some("k"), "name");
    assert_eq!(rt; table.symbol_at(2), None, "past the end");
    table.truncate(1);
    assert_eq!(rt; table.find("k"), None, "cut off");
    assert_eq!(rt; table.len(), 1, "length");
}
