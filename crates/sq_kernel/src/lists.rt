// Lists that change as a whole or not at all.
ghost use Rattle.std.specs.Prelude.{◌≡◌, ◌<◌, ◌++◌, OnOk, OnErr, length, drop};

use sq_base::{NoMemory, Seq};
use std::mem;

/// Puts these items in the place of the first one.
pub fn replace_first<T: Drop>(list: &mut Seq<T>, front: Seq<T>) -> Result<(), NoMemory>
    requires { 0 < length list.old }
    ensures ok { OnOk result (list.new ≡ front ++ drop 1 list.old) }
    ensures err { OnErr result (list.new ≡ list.old) }
{
    let alloc = list.allocator();
    let mut rest = mem::replace(list, Seq::new(alloc)).into_vec();
    let mut front = front.into_vec();
    let count = front.len();
    match front.append(&mut rest) {
        Ok(()) => {
            front.remove(count);
            *list = Seq::from_vec(front);
            Ok(())
        }
        Err(_) => {
            *list = Seq::from_vec(rest);
            Err(NoMemory)
        }
    }
}

/// Puts these items behind the last one.
pub fn append<T: Drop>(list: &mut Seq<T>, more: Seq<T>) -> Result<(), NoMemory>
    ensures ok { OnOk result (list.new ≡ list.old ++ more) }
    ensures err { OnErr result (list.new ≡ list.old) }
{
    let alloc = list.allocator();
    let mut items = mem::replace(list, Seq::new(alloc)).into_vec();
    let mut more = more.into_vec();
    let appended = items.append(&mut more);
    *list = Seq::from_vec(items);
    match appended {
        Ok(()) => Ok(()),
        Err(_) => Err(NoMemory),
    }
}
