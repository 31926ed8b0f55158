//! The program of the drill.
ghost use Rattle.std.specs.Prelude.{IfOk};
ghost use Rattle.model_solved.specs.Founding.{founding_of};
ghost use Rattle.drill.specs.Program.{IsDrillProgram};

use model_check::check;
use model_lang::{LangFault, one_reading, one_tree, parse};
use model_solved::{CheckFault, Checked};
use std::alloc::Global;
use tea_base::WantOfMemory;

/// The name of the session.
pub const NAME: &str = "drill";

/// The program: it adds what views send, and tells the sum at each sixteenth event.
pub const PROGRAM: &[u8] =
    b"class Root{field total;field n;init(o){this.total=0;this.n=0;subscribe(\"drill\",\"add\",\"add\");}add(v){this.total=this.total+v;this.n=this.n+1;if(this.n%16==0){this.future(1).mark();}}mark(){publish(\"drill\",\"mark\",this.total);}}";

/// The program, checked. Fails for want of memory alone.
pub fn drill_program(alloc: Global) -> Result<Checked, WantOfMemory>
    ensures { IfOk result (λ checked. IsDrillProgram (founding_of checked)) }
{
    one_tree(); // for the prover
    one_reading(); // for the prover
    let program = match parse(alloc, PROGRAM) {
        Ok(program) => program,
        Err(LangFault::WantOfMemory) => return Err(WantOfMemory),
        Err(LangFault::TooLarge { .. }) => unreachable!(),
        Err(LangFault::Syntax { .. }) => unreachable!(),
    };
    match check(alloc, program) {
        Ok(checked) => Ok(checked),
        Err(CheckFault::WantOfMemory) => Err(WantOfMemory),
        Err(CheckFault::Twice { .. }) => unreachable!(),
        Err(CheckFault::NoName { .. }) => unreachable!(),
        Err(CheckFault::NoClass { .. }) => unreachable!(),
        Err(CheckFault::NoField { .. }) => unreachable!(),
        Err(CheckFault::Count { .. }) => unreachable!(),
        Err(CheckFault::NoRoot) => unreachable!(),
    }
}
