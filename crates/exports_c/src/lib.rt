// The calls of the crate exports under C's names: a static library, where that crate is a library for others. Each has the same promises.
// Each is written out, since the C interface needs it: a static library exports the functions of its own source, and none by `pub use`.
#![tactic(auto)]

ghost use Rattle.routes.specs.Route.{lent};
ghost use Rattle.cases.specs.File.{case_within};
ghost use Rattle.exports.specs.Exported.{TranslateSays, SolveSays, DirectSays, EquationSays, OpenSays, AddSays, DropSays};

use exports::{EquationNumbers, Numbers, RouteNumbers};

#[unsafe(no_mangle)]
pub extern "C" fn bithrowy_translate(case: &[u8], file: &mut [u8]) -> Numbers
    ensures { TranslateSays case.now file.old result file.new }
{
    exports::bithrowy_translate(case, file)
}

#[unsafe(no_mangle)]
pub extern "C" fn bithrowy_solve(
    file: &[u8],
    work: &mut [u8],
    marks: &mut [u64],
    limit: u64,
) -> Numbers
    ensures { SolveSays file.now work.old marks.old limit result work.new marks.new }
{
    exports::bithrowy_solve(file, work, marks, limit)
}

#[unsafe(no_mangle)]
pub extern "C" fn bithrowy_direct(case: &[u8], marks: &mut [u64], limit: u64) -> RouteNumbers
    ensures { DirectSays case.now marks.old limit result marks.new }
{
    exports::bithrowy_direct(case, marks, limit)
}

#[unsafe(no_mangle)]
pub extern "C" fn bithrowy_equation(
    case: &[u8],
    file: &mut [u8],
    work: &mut [u8],
    marks: &mut [u64],
    limit: u64,
) -> EquationNumbers
    ensures { EquationSays case.now (lent file.old work.old marks.old) limit result
        file.new work.new marks.new }
{
    exports::bithrowy_equation(case, file, work, marks, limit)
}

#[unsafe(no_mangle)]
pub extern "C" fn bithrowy_open(case: &[u8], model: &mut [u8]) -> u64
    ensures { OpenSays case.now model.old result model.new }
{
    exports::bithrowy_open(case, model)
}

#[unsafe(no_mangle)]
pub extern "C" fn bithrowy_add(model: &mut [u8], source: u64, label: u64, target: u64) -> u64
    ensures { AddSays model.old (record { source = source; label = label; target = target }) result model.new }
{
    exports::bithrowy_add(model, source, label, target)
}

#[unsafe(no_mangle)]
pub extern "C" fn bithrowy_drop(model: &mut [u8], source: u64, label: u64, target: u64) -> u64
    ensures { DropSays model.old (record { source = source; label = label; target = target }) result model.new }
{
    exports::bithrowy_drop(model, source, label, target)
}

#[unsafe(no_mangle)]
pub extern "C" fn bithrowy_want(model: &[u8], marks: &mut [u64], limit: u64) -> RouteNumbers
    ensures { DirectSays (case_within model.now) marks.old limit result marks.new }
{
    exports::bithrowy_want(model, marks, limit)
}
