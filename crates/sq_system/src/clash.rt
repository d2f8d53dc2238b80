// Which instances of actions exclude each other.
ghost use Rattle.std.specs.Prelude.{◌≡◌, ◌≤◌, ◌<◌, ◌+◌, ◌^◌, sum_by, option_map, slice_get};
ghost use Rattle.std.specs.Prelude.{if◌then◌else◌, length, [], ◌∷◌};
ghost use Rattle.sq_term.specs.Systems as spec;
ghost use Rattle.sq_term.specs.Systems.{indices_bound, same_step};
ghost use Rattle.sq_term.specs.Lists.{same_numbers};
ghost use Rattle.sq_system.specs.Clashes.{choice_of, indices_found};

use sq_term::PathStep;

/// A choice on the common path of two actions. Instances are in conflict there exactly where their
/// first `agree` indices are equal and, where `differ` is above 0, the next `differ` ones are not
/// all equal.
#[derive(Clone, Copy, Debug, PartialEq, Eq)]
pub struct Clash {
    pub agree: u32,
    pub differ: u32,
}

fn indices_bound(step: PathStep) -> u32
    ensures { result ≡ indices_bound step }
{
    match step {
        PathStep::Rep => 1,
        PathStep::Found(c) => c,
        _ => 0,
    }
}

fn is_same(s: PathStep, t: PathStep) -> bool
    ensures { result ≡ same_step s t }
{
    match (s, t) {
        (PathStep::Side(a), PathStep::Side(b)) | (PathStep::Branch(a), PathStep::Branch(b)) => {
            if a { b } else { !b }
        }
        (PathStep::Found(c), PathStep::Found(d)) => c == d,
        (PathStep::Rep, PathStep::Rep)
        | (PathStep::NotFound, PathStep::NotFound)
        | (PathStep::Done, PathStep::Done) => true,
        _ => false,
    }
}

fn is_choice(s: PathStep, t: PathStep) -> bool
    ensures { result ≡ spec.is_choice s t }
{
    match (s, t) {
        (PathStep::Branch(_), PathStep::Branch(_))
        | (PathStep::Found(_), PathStep::NotFound)
        | (PathStep::NotFound, PathStep::Found(_)) => true,
        (PathStep::Found(c), PathStep::Found(d)) => c == d,
        _ => false,
    }
}

// The indices that a find binds where it found.
fn found(step: PathStep) -> u32
    ensures { result ≡ indices_found step }
{
    match step {
        PathStep::Found(c) => c,
        _ => 0,
    }
}

// The choice number `before` where two paths part.
fn parting(s: PathStep, t: PathStep, agree: u32, before: u32) -> Option<Clash>
    ensures { option_map choice_of result
        ≡ slice_get
        (if spec.is_choice s t then record { agree = agree; differ = 0 } ∷ [] else []) before }
{
    if is_choice(s, t) && before == 0 {
        Some(Clash { agree, differ: 0 })
    } else {
        None
    }
}

/// The choice number `k` on the common path of `p` and `q`.
pub fn nth_choice(p: &[PathStep], q: &[PathStep], k: u32) -> Option<Clash>
    requires { sum_by indices_bound p.now < 2 ^ 32 }
    ensures { option_map choice_of result ≡ spec.clash p.now q.now k }
{
    let mut agree: u32 = 0;
    let mut before = k;
    let mut left = p;
    let mut right = q;
    'steps: while let (Some((s, left_rest)), Some((t, right_rest))) = (
        left.split_first(),
        right.split_first(),
    ) {
        if !is_same(*s, *t) {
            return parting(*s, *t, agree, before);
        }
        let differ = found(*s);
        if differ > 0 {
            if before == 0 {
                return Some(Clash { agree, differ });
            }
            before -= 1;
        }
        agree += indices_bound(*s);
        left = left_rest;
        right = right_rest;
    }
    None
}

/// Whether instances with these paths and indices exclude each other.
pub fn in_conflict(p: &[PathStep], is: &[u32], q: &[PathStep], js: &[u32]) -> bool
    requires first { sum_by indices_bound p.now ≤ length is.now }
    requires second { sum_by indices_bound q.now ≤ length js.now }
    ensures { result ≡ spec.in_conflict p.now is.now q.now js.now }
{
    let mut left = p;
    let mut left_indices = is;
    let mut right = q;
    let mut right_indices = js;
    'steps: while let (Some((s, left_rest)), Some((t, right_rest))) = (
        left.split_first(),
        right.split_first(),
    ) {
        let (own, own_rest) = left_indices.split_at(indices_bound(*s) as usize);
        let (its, its_rest) = right_indices.split_at(indices_bound(*t) as usize);
        if !(is_same(*s, *t) && are_same(own, its)) {
            return is_choice(*s, *t);
        }
        left = left_rest;
        left_indices = own_rest;
        right = right_rest;
        right_indices = its_rest;
    }
    false
}

fn are_same(is: &[u32], js: &[u32]) -> bool
    ensures { result ≡ same_numbers is.now js.now }
{
    is == js
}
