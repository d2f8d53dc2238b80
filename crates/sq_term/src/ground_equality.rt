// Equality of ground terms.
ghost use Rattle.std.specs.Prelude.{◌≡◌, ◌↔◌, IsTrue};

use crate::ground::GTerm;

/// Whether the ground terms are equal. It takes no memory.
#[cycle(same_ground)]
pub fn same_ground(a: &GTerm, b: &GTerm) -> bool
    ensures { IsTrue result ↔ (a.now ≡ b.now) }
{
    match (a, b) {
        (GTerm::Name(m, is), GTerm::Name(n, js)) => m == n && is.as_slice() == js.as_slice(),
        (GTerm::Fun(f, is, ts), GTerm::Fun(g, js, us)) => {
            f == g && is.as_slice() == js.as_slice() && same_grounds(ts.as_slice(), us.as_slice())
        }
        (GTerm::Atom(j), GTerm::Atom(k)) => j == k,
        _ => false,
    }
}

#[cycle(same_ground)]
fn same_grounds(a: &[GTerm], b: &[GTerm]) -> bool
    ensures { IsTrue result ↔ (a.now ≡ b.now) }
{
    if a.len() != b.len() {
        return false;
    }
    for i in 0..a.len() {
        if !same_ground(&a[i], &b[i]) {
            return false;
        }
    }
    true
}
