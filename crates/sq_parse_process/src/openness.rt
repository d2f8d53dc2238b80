// Whether an `else` behind a process would belong to an `if` or `find` in it.
ghost use Rattle.std.specs.Prelude.{◌↔◌, IsTrue};
ghost use Rattle.sq_ast.specs.ProcTree.{process_tree};
ghost use Rattle.sq_ast.specs.ProcGrammar.{IsOpen};

use sq_ast::Proc;

/// Whether the process ends in an `if` or a `find` without an `else`.
pub fn is_open(process: &Proc) -> bool
    ensures { IsTrue result ↔ IsOpen (process_tree process.now) }
{
    match process {
        Proc::If(_, _, None) => true,
        Proc::Find(_, _, _, None) => true,
        Proc::New(_, body) => is_open(body.get()),
        Proc::In(_, _, Some(next)) => is_open(next.get()),
        Proc::Out(_, _, Some(next)) => is_open(next.get()),
        Proc::If(_, _, Some(no)) => is_open(no.get()),
        Proc::Find(_, _, _, Some(no)) => is_open(no.get()),
        Proc::Let(_, _, body) => is_open(body.get()),
        Proc::Replicate(_, body) => is_open(body.get()),
        Proc::Label(_, body) => is_open(body.get()),
        Proc::Null => false,
        Proc::In(_, _, None) => false,
        Proc::Out(_, _, None) => false,
        Proc::Call(_, _) => false,
        Proc::Parallel(_) => false,
    }
}
