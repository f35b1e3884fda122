//! Opens several inputs, and closes their sources.

ghost use Rattle.std.specs.Prelude.{IfOk, IfErr, map};
ghost use Rattle.command_plans.specs.Sources.{TookSources, WereNotOpened, WereOpened};

use crate::read::refusal_of_opening;
use outer_traits::inputs::Inputs;
use refusals::Refusal;
use std::alloc::Global;

/// The sources of named inputs, opened in the order of the names. Where one isn't opened, those before it are closed
/// again.
pub fn open_all<I: Inputs>(
    alloc: Global,
    inputs: &mut I,
    names: &[&str],
) -> Result<Vec<I::Source>, Refusal>
    // It took a way through its plan; each source has what the files have at its name.
    ensures opened { IfOk result (λ sources. WereOpened I.Source.state (map (λ name. name.now) names.now) sources.items
        (I.state inputs.old) (I.state inputs.new)) }
    ensures refused { IfErr result (WereNotOpened (map (λ name. name.now) names.now) (I.state inputs.old)
        (I.state inputs.new)) }
{
    let mut sources = Vec::with_capacity(alloc, names.len())?;
    for name in names {
        match inputs.open(alloc, name) {
            Ok(source) => sources.push_reserved(source),
            Err(fault) => {
                close_all(inputs, sources);
                return Err(refusal_of_opening(alloc, fault, name));
            }
        }
    }
    Ok(sources)
}

/// Closes sources, so that their faults are counted.
pub fn close_all<I: Inputs>(inputs: &mut I, sources: Vec<I::Source>)
    ensures { TookSources I.Source.state sources.items (I.state inputs.old) (I.state inputs.new) }
{
    for source in sources {
        inputs.close(source);
    }
}
