//! Scripts.
ghost use Rattle.std.specs.Prelude.{◌≡◌};
ghost use Rattle.view_script.specs.Answer.{ReadsScript};
ghost use Rattle.view_script.specs.PlainLine.{plain_lines, IsViewScript};
ghost use Rattle.view_script.specs.ViewScript.{view_script_of};

use crate::fault::ScriptFault;
use crate::line::ViewLine;
use crate::reading::read_text;
use std::alloc::Global;
use std::marker::Model;

/// A script: what a view does, line by line. Contracts see the list of its lines.
#[derive(Drop)]
pub struct ViewScript {
    held: Vec<ViewLine>,
}

impl Model for ViewScript {
    ghost use Rattle.std.specs.Prelude.{List};
    ghost use Rattle.std.specs.Coded.{coded_list};
    ghost use Rattle.view_script.specs.contracts.line.ViewLine as line;
    ghost use Rattle.view_script.specs.declared.line.ViewLine.{ViewLine};
    ghost use Rattle.view_script.specs.PlainLine.{plain_lines, IsViewScript};

    ghost Value = { List ViewLine };

    ghost coded = { coded_list line.the_row.coded };

    ghost view = { λ script. script.held.items };

    ghost invariant = { λ script. IsViewScript (plain_lines script.held.items) };
}

impl ViewScript {
    /// The lines in order. Takes no memory.
    ///
    /// In each script a value that is published is in bounds, and its payload has at most 4,096 bytes; each time is below
    /// 2^53; and at most 1,048,576 lines publish.
    pub fn lines(&self) -> &[ViewLine]
        ensures lines { result.now ≡ self.now }
        ensures script { IsViewScript (plain_lines self.now) }
    {
        &self.held
    }

    /// The lines in order, as a vector of the caller's own. Takes no memory.
    pub fn into_lines(self) -> Vec<ViewLine>
        ensures lines { result.items ≡ self }
        ensures script { IsViewScript (plain_lines result.items) }
    {
        let ViewScript { held } = self;
        held
    }
}

/// The script that the bytes spell. `Bad` comes exactly where they spell none.
pub fn parse_script(alloc: Global, bytes: &[u8]) -> Result<ViewScript, ScriptFault>
    ensures { ReadsScript result (view_script_of bytes.now) }
{
    match str::from_utf8(bytes) {
        Ok(text) => Ok(ViewScript {
            held: read_text(alloc, text)?,
        }),
        Err(_) => Err(ScriptFault::Bad),
    }
}
