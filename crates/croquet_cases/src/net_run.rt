//! A run of `join` or `reflect` over files, a net and an output in memory.
use crate::feed::feed_of;
use crate::link::net_of;
use crate::net_case::{NetCase, NetCommand};
use crate::stores::stores_of;
use case_lines::{CaseFault, WantingSink};
use croquet::{Status, croquet};
use net_shares::{MemSharedNet, MemSigns};
use std::alloc::Global;
use std::sync::Wait;
use std::thread::Threads;
use tea_base::{Blob, Numbers, Text, WantOfMemory, Words};
use tea_io::{Files, FixedClock, MemFiles, NamedBlobs, OpenGate};

/// What a run came to.
#[derive(Drop)]
pub(crate) struct NetRun {
    pub(crate) status: Status,
    pub(crate) text: Blob,
    pub(crate) files: MemFiles,
    pub(crate) net: MemSharedNet,
}

/// Runs a case: the program lies in the file `p`, and the script in the file `s`. A reflector's log is put under `f`.
pub(crate) fn run_case<R: Threads + Wait + Sync + AllocGlobal>(
    rt: &R,
    case: &NetCase,
) -> Result<NetRun, CaseFault> {
    let alloc = rt.alloc();
    let words = words_of(alloc, case)?;
    let mut files = files_of(alloc, case)?;
    let net = net_of(alloc, case.links.as_slice(), case.faults.failing_net)?;
    let mut output = case.faults.output(alloc)?;
    let clock = FixedClock { at: 0 };
    let (net, status) = croquet(
        rt,
        alloc,
        &words,
        &mut files,
        &mut stores_of(alloc, case.faults)?,
        &mut feed_of(alloc, case)?,
        &clock,
        net,
        &OpenGate,
        &MemSigns {
            names: Words::new(alloc),
        },
        &mut output,
    );
    let WantingSink { out, .. } = output;
    Ok(NetRun {
        status,
        text: out.into_bytes(),
        files,
        net,
    })
}

fn words_of(alloc: Global, case: &NetCase) -> Result<Words, WantOfMemory> {
    match case.command {
        NetCommand::Join => copy_words(
            alloc,
            &["join", "p", case.name, case.address, case.number, "s"],
        ),
        NetCommand::Live => copy_words(
            alloc,
            &["join", "p", case.name, case.address, case.number, "-"],
        ),
        NetCommand::Reflect => copy_words(
            alloc,
            &[
                "reflect",
                "p",
                case.name,
                case.address,
                "--connections",
                case.number,
                "--log",
                "f",
            ],
        ),
    }
}

fn copy_words(alloc: Global, texts: &[&str]) -> Result<Words, WantOfMemory> {
    let mut words = Words::new(alloc);
    for text in texts {
        words.push(Text::copy(alloc, text)?)?;
    }
    Ok(words)
}

/// The files, of which one call fails, counted from behind the two writes that put them there.
fn files_of(alloc: Global, case: &NetCase) -> Result<MemFiles, WantOfMemory> {
    let failing = case.faults.failing_file_behind(2);
    let failing = Numbers::from_vec(vec![in alloc; failing]?);
    let mut files = MemFiles::new(alloc, NamedBlobs::new(alloc), failing);
    write_file(alloc, &mut files, "p", case.program.as_bytes())?;
    write_file(alloc, &mut files, "s", case.script.as_slice())?;
    Ok(files)
}

fn write_file(
    alloc: Global,
    files: &mut MemFiles,
    name: &str,
    bytes: &[u8],
) -> Result<(), WantOfMemory> {
    match files.write(&Text::copy(alloc, name)?, bytes) {
        Ok(()) => Ok(()),
        Err(_) => Err(WantOfMemory),
    }
}
