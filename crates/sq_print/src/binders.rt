// The names of bound variables.
ghost use Rattle.std.specs.Prelude.{◌≡◌, ◌+◌, ◌<◌, [], ◌∷◌, ◌++◌, IfOk, OnOk, Some, length};
ghost use Rattle.std.specs.Prelude.{slice_get, string_bytes, if◌then◌else◌};
ghost use Rattle.std.specs.Fmt.{decimal};
ghost use Rattle.sq_print.specs.Names as spec;
ghost use Rattle.sq_print.specs.Names.{Names};
ghost use Rattle.sq_print.specs.Supplies.{IsSupply, IsAround, Released};
ghost use Rattle.sq_print.specs.Scopes.{names_of};

use crate::scope::Scope;
use sq_base::{NoMemory, Seq, Sort, Text};
use sq_sym::candidate;
use std::alloc::Global;

/// The names that binders of one sort take in turn: those of a stem, the stem and 1, the stem and 2
/// and so on that are not used otherwise. Each is looked for once.
#[derive(Drop)]
pub struct Supply {
    pub found: Seq<Text>,
    /// How many candidates were looked at.
    pub tried: u32,
    /// How many names the binders around have.
    pub used: u32,
}

/// The names of the binders around a place, from outside in, and the names for further ones.
#[derive(Drop)]
pub struct Binders {
    pub around: Seq<Text>,
    pub indices: Supply,
    pub times: Supply,
}

/// How many binders are around, and how many of them are of each sort.
#[derive(Clone, Copy)]
pub struct Mark {
    pub depth: usize,
    pub indices: u32,
    pub times: u32,
}

impl Supply {
    fn new(alloc: Global) -> Supply
        ensures found { result.found ≡ [] }
        ensures tried { result.tried ≡ 0 }
        ensures used { result.used ≡ 0 }
    {
        Supply {
            found: Seq::new(alloc),
            tried: 0,
            used: 0,
        }
    }

    /// Finds names until there is one for a further binder.
    fn reach(&mut self, scope: &Scope, sort: Sort) -> Result<(), NoMemory>
        requires { IsSupply (names_of scope.now) (spec.stem sort) self.old }
        ensures kept { OnOk result (IsSupply (names_of scope.now) (spec.stem sort) self.new) }
        ensures used { OnOk result (self.new.used ≡ self.old.used) }
        ensures enough { OnOk result (self.new.used < length self.new.found) }
    {
        let alloc = self.found.allocator();
        'candidates: while self.found.len() <= self.used as usize {
            let name = candidate(alloc, stem(sort), self.tried)?;
            let Some(tried) = self.tried.checked_add(1) else {
                return Err(NoMemory);
            };
            add_free(&mut self.found, scope, name)?;
            self.tried = tried;
        }
        Ok(())
    }

    /// The name of a further binder.
    fn next(&mut self, scope: &Scope, sort: Sort) -> Result<Text, NoMemory>
        requires { IsSupply (names_of scope.now) (spec.stem sort) self.old }
        ensures kept { OnOk result (IsSupply (names_of scope.now) (spec.stem sort) self.new) }
        ensures used { OnOk result (self.new.used ≡ self.old.used + 1) }
        ensures name { IfOk result (λ name. slice_get self.new.found self.old.used ≡ Some name) }
    {
        self.reach(scope, sort)?;
        let at = self.used;
        let Some(used) = at.checked_add(1) else {
            return Err(NoMemory);
        };
        self.used = used;
        self.found.as_slice()[at as usize].copy(self.found.allocator())
    }
}

impl Binders {
    /// No binders.
    pub fn new(alloc: Global) -> Binders
        ensures none { result.around ≡ [] }
        ensures right { (ns : Names) → IsAround ns result }
    {
        Binders {
            around: Seq::new(alloc),
            indices: Supply::new(alloc),
            times: Supply::new(alloc),
        }
    }

    pub fn mark(&self) -> Mark
        ensures depth { result.depth ≡ length self.now.around }
        ensures indices { result.indices ≡ self.now.indices.used }
        ensures times { result.times ≡ self.now.times.used }
    {
        Mark {
            depth: self.around.len(),
            indices: self.indices.used,
            times: self.times.used,
        }
    }

    /// Leaves the binders that were entered since the mark.
    pub fn release(&mut self, mark: Mark)
        ensures { Released mark self.old self.new }
    {
        self.around.truncate(mark.depth);
        self.indices.used = mark.indices;
        self.times.used = mark.times;
    }

    /// Enters a binder, whose name is the last one from then on.
    pub fn bind(&mut self, scope: &Scope, sort: Sort) -> Result<(), NoMemory>
        requires { IsAround (names_of scope.now) self.old }
        ensures name { OnOk result
            (self.new.around
            ≡ self.old.around ++ spec.binder_name (names_of scope.now) self.old.around sort ∷ []) }
        ensures kept { OnOk result (IsAround (names_of scope.now) self.new) }
    {
        match sort {
            Sort::Timestamp => self.bind_time(scope),
            Sort::Index => self.bind_index(scope),
            Sort::Message => self.bind_index(scope),
            Sort::Boolean => self.bind_index(scope),
        }
    }

    fn bind_time(&mut self, scope: &Scope) -> Result<(), NoMemory>
        requires { IsAround (names_of scope.now) self.old }
        ensures name { OnOk result
            (self.new.around
            ≡ self.old.around
            ++ spec.binder_name (names_of scope.now) self.old.around Sort.Timestamp ∷ []) }
        ensures kept { OnOk result (IsAround (names_of scope.now) self.new) }
    {
        let name = self.times.next(scope, Sort::Timestamp)?;
        self.around.push(name)?;
        Ok(())
    }

    fn bind_index(&mut self, scope: &Scope) -> Result<(), NoMemory>
        requires { IsAround (names_of scope.now) self.old }
        ensures name { OnOk result
            (self.new.around
            ≡ self.old.around
            ++ spec.binder_name (names_of scope.now) self.old.around Sort.Index ∷ []) }
        ensures kept { OnOk result (IsAround (names_of scope.now) self.new) }
    {
        let name = self.indices.next(scope, Sort::Index)?;
        self.around.push(name)?;
        Ok(())
    }
}

fn stem(sort: Sort) -> &'static str
    ensures { result.now ≡ spec.stem sort }
{
    match sort {
        Sort::Timestamp => "t",
        Sort::Index | Sort::Message | Sort::Boolean => "i",
    }
}

/// A number in decimal digits.
pub fn number_text(alloc: Global, n: usize) -> Result<String, NoMemory>
    ensures { IfOk result (λ s. string_bytes s ≡ decimal n) }
{
    Ok(format!(in alloc; "{n}")?)
}

fn add_free(found: &mut Seq<Text>, scope: &Scope, name: Text) -> Result<(), NoMemory>
    ensures { OnOk result
        (found.new
        ≡ (if spec.is_used (names_of scope.now) name then found.old else found.old ++ name ∷ [])) }
{
    if scope.is_used(name.as_str()) {
        return Ok(());
    }
    found.push(name)
}
