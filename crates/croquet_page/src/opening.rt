//! The opening of a page.
ghost use Rattle.std.specs.Prelude.{◌≡◌, ◌<◌, ◌^◌, ◌++◌, ℕ, length, List, IfErr, IfOk, encode_utf8_all};
ghost use Rattle.std.specs.Arc.{arc_value};
ghost use Rattle.byte_fields.specs.Fields.{text_field};
ghost use Rattle.sha2.specs.Sha256.{sha256};
ghost use Rattle.model_value.specs.Plain.{nil};
ghost use Rattle.snapshot_codec.specs.Spelling.{persisted_bytes};
ghost use Rattle.croquet_page.specs.Opening.{IsFoundedFrom, Opens, ReadsName, ReadsProgram, Refuses, line_of as line_in, open_number as number_of_opening, page_of as page_in};

use crate::living::Living;
use crate::page::{Page, nothing};
use command_outcome::{ProgramFault, read_program};
use model_solved::Checked;
use model_value::Value;
use snapshot_codec::session_id;
use std::alloc::Global;
use std::sync::Arc;
use tea_base::{Blob, SessionId, Text, TextFault, WantOfMemory};

/// The most bytes of a session's name.
const MOST_NAME: usize = 255;

/// Why no page was opened.
#[derive(Debug, Drop)]
pub enum OpenFault {
    /// The program is refused, with the line that tells why.
    Program { line: Blob },
    /// The name is no UTF-8, or has more than 255 bytes.
    Name,
    /// The number of the view is 0.
    View,
    WantOfMemory,
}

impl From<WantOfMemory> for OpenFault {
    ghost use Rattle.std.specs.Prelude.{◌≡◌};
    ghost use Rattle.croquet_page.specs.declared.opening.OpenFault.TheVariants as faults;

    ghost from_gives = { λ _ fault. fault ≡ faults.WantOfMemory };

    fn from(_error: WantOfMemory) -> Self {
        OpenFault::WantOfMemory
    }
}

/// The program that a text spells.
fn program_of(alloc: Global, text: &[u8]) -> Result<Checked, OpenFault>
    ensures { (name : List ℕ) (view : ℕ) → ReadsProgram text.now name view result }
{
    match read_program(alloc, text) {
        Ok(program) => Ok(program),
        Err(ProgramFault::Refused { line }) => Err(OpenFault::Program { line }),
        Err(ProgramFault::WantOfMemory) => Err(OpenFault::WantOfMemory),
    }
}

/// The name of a session.
fn name_of(alloc: Global, name: &[u8]) -> Result<Text, OpenFault>
    ensures { (program : List ℕ) (view : ℕ) → ReadsName program name.now view result }
{
    if name.len() > MOST_NAME {
        return Err(OpenFault::Name);
    }
    match Text::read(alloc, name) {
        Ok(name) => Ok(name),
        Err(TextFault::NotUtf8) => Err(OpenFault::Name),
        Err(TextFault::WantOfMemory) => Err(OpenFault::WantOfMemory),
    }
}

/// The same program without a persisted value.
fn without_value(checked: Checked) -> Checked
    ensures { result ≡ record checked { persisted = nil } }
{
    checked.with_persisted(Value::Nil)
}

/// What a session of a program's text is founded from: the program, which has no persisted value.
fn program_to_share(alloc: Global, text: &[u8]) -> Result<Arc<Checked, Global>, OpenFault>
    ensures ok { IfOk result (λ shared. IsFoundedFrom text.now (arc_value shared)) }
    ensures err { (name : List ℕ) (view : ℕ) → IfErr result (λ fault. Refuses text.now name view fault) }
{
    let checked = program_of(alloc, text)?;
    let founded = without_value(checked);
    match Arc::new(alloc, founded) {
        Ok(shared) => Ok(shared),
        Err(_) => Err(OpenFault::WantOfMemory),
    }
}

/// The id of the session of a name and a program's text, which has no persisted value.
fn id_of(title: &Text, program: &[u8]) -> SessionId
    requires { length (encode_utf8_all title.now) < 2 ^ 32 }
    ensures { result.0 ≡ sha256 (text_field title.now ++ program.now ++ persisted_bytes nil) }
{
    session_id(title, program, &Value::Nil)
}

/// A page of a program's text, for a view of the session of a name. The program has no persisted value.
pub fn open_page(alloc: Global, program: &[u8], name: &[u8], view: u32) -> Result<Page, OpenFault>
    ensures { Opens program.now name.now view result }
{
    if view == 0 {
        return Err(OpenFault::View);
    }
    let title = name_of(alloc, name)?;
    let shared = program_to_share(alloc, program)?;
    let id = id_of(&title, program);
    let living = Living::found(alloc, shared, id, view)?;
    Ok(Page {
        alloc,
        view: living,
        last: nothing(alloc),
    })
}

/// The number of how an opening ended. 0: a page is open. 2: the program is refused. 3: the name is none. 4: the number of the view is 0.
/// 8: memory was wanted.
pub fn open_number(opened: &Result<Page, OpenFault>) -> u32
    ensures { result ≡ number_of_opening opened.now }
{
    match opened {
        Ok(_) => 0,
        Err(OpenFault::Program { .. }) => 2,
        Err(OpenFault::Name) => 3,
        Err(OpenFault::View) => 4,
        Err(OpenFault::WantOfMemory) => 8,
    }
}

/// The page that there is behind an opening, and the line that tells why there is none. Takes no memory.
pub fn opened_parts(alloc: Global, opened: Result<Page, OpenFault>) -> (Option<Page>, Blob)
    ensures page { result.0 ≡ page_in opened }
    ensures line { result.1 ≡ line_in opened }
{
    match opened {
        Ok(page) => (Some(page), Blob::new(alloc)),
        Err(OpenFault::Program { line }) => (None, line),
        Err(OpenFault::Name) => (None, Blob::new(alloc)),
        Err(OpenFault::View) => (None, Blob::new(alloc)),
        Err(OpenFault::WantOfMemory) => (None, Blob::new(alloc)),
    }
}
