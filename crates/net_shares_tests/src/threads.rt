//! Threads that accept by shares.
ghost use Rattle.std.specs.Prelude.{◌≡◌, All, IfOk};
ghost use Rattle.tea_io.specs.MemNet.{HasNoCounts};

use net_shares::{
    Answers, FileStop, ListStop, MemSharedNet, MemSigns, Returned, Share, SharePlan, SharePlans,
    SharedNet, Stop,
};
use std::alloc::Global;
use std::process::Abort;
use std::test::Fail;
use std::thread::{Threads, join};
use tea_base::{Numbers, Text, WantOfMemory, Words};
use tea_io::{Blobs, FixedClock, Link, MemLink, MemLinks};

/// How often a share is asked for a link.
const TURNS: u32 = 6;

/// What came of the turns of a share.
#[derive(Clone, Copy, Debug, PartialEq, Eq)]
struct Taken {
    links: u32,
    nobody: u32,
    failed: u32,
}

const NOTHING: Taken = Taken {
    links: 0,
    nobody: 0,
    failed: 0,
};

/// Takes links by a share, and gives each back at once, until it is to stop.
fn take_links<P: Share + Drop, S: Stop>(mut share: P, stop: &S) -> (P, Taken)
    ensures { P.lent result.0 ≡ P.lent share }
{
    let mut taken = NOTHING;
    for _turn in 0..TURNS {
        if stop.asks() {
            break;
        }
        match share.accept() {
            Ok(Some(mut link)) => {
                let _ = link.recv();
                share.back(link);
                taken.links = taken.links.saturating_add(1);
            }
            Ok(None) => taken.nobody = taken.nobody.saturating_add(1),
            Err(_) => taken.failed = taken.failed.saturating_add(1),
        }
    }
    (share, taken)
}

/// A link that ends at once.
fn link_of(alloc: Global) -> MemLink
    ensures { HasNoCounts result }
{
    let none = Numbers::new(alloc);
    MemLink::new(alloc, Blobs::new(alloc), none, Numbers::new(alloc))
}

fn one_link(alloc: Global) -> Result<MemLinks, WantOfMemory>
    ensures { IfOk result (All HasNoCounts) }
{
    let mut links = MemLinks::new(alloc);
    links.push(link_of(alloc))?;
    Ok(links)
}

fn two_links(alloc: Global) -> Result<MemLinks, WantOfMemory>
    ensures { IfOk result (All HasNoCounts) }
{
    let mut links = MemLinks::new(alloc);
    links.push(link_of(alloc))?;
    links.push(link_of(alloc))?;
    Ok(links)
}

/// A number alone.
fn one_of(alloc: Global, number: u32) -> Result<Numbers, WantOfMemory> {
    let mut numbers = Numbers::new(alloc);
    numbers.push(number)?;
    Ok(numbers)
}

/// A net whose first share gives two links, fails at its second accept and has nobody at its third, and whose second share gives one link.
fn net_of(alloc: Global) -> Result<MemSharedNet, WantOfMemory> {
    let first = SharePlan::new(two_links(alloc)?, one_of(alloc, 2)?, one_of(alloc, 3)?);
    let second = SharePlan::new(one_link(alloc)?, Numbers::new(alloc), Numbers::new(alloc));
    let mut plans = SharePlans::new(alloc);
    plans.push(first)?;
    plans.push(second)?;
    let none = Numbers::new(alloc);
    Ok(MemSharedNet::new(alloc, MemLinks::new(alloc), plans, none))
}

/// Two threads take links by the shares of a net, which then go back to it.
fn two_take<R: Threads, S: Stop + Sync>(
    rt: &R,
    net: &mut MemSharedNet,
    stop: &S,
) -> Result<(Taken, Taken), Fail> {
    let first = net.share()?;
    let second = net.share()?;
    let ((first, one), (second, other)) = join(
        rt,
        || take_links(first, stop),
        || take_links(second, stop),
    );
    net.rejoin(first);
    net.rejoin(second);
    Ok((one, other))
}

/// The name of the file that stops.
fn name_of(alloc: Global) -> Result<Text, WantOfMemory> {
    Text::copy(alloc, "stop")
}

/// How many links came back with what was given back at this place, where something was.
fn links_at(net: &MemSharedNet, place: usize) -> Option<usize> {
    match net.returned().get(place)? {
        Returned::Link(_) => Some(1),
        Returned::Share(share) => Some(share.over().len()),
    }
}

#[test]
fn two_threads_take_the_links_of_their_shares(rt: HostRuntime) -> Result<(), Fail> {
    let alloc = rt.alloc();
    let mut net = net_of(alloc)?;
    let signs = MemSigns {
        names: Words::new(alloc),
    };
    let clock = FixedClock { at: 0 };
    let stop = FileStop::new(&signs, &clock, Some(name_of(alloc)?));
    let (one, other) = two_take(&rt, &mut net, &stop)?;
    assert_eq!(rt;
        one,
        Taken {
            links: 2,
            nobody: 3,
            failed: 1
        }
    );
    assert_eq!(rt;
        other,
        Taken {
            links: 1,
            nobody: 5,
            failed: 0
        }
    );
    assert_eq!(rt; net.faults(), 1);
    assert_eq!(rt; net.returned().len(), 2);
    assert_eq!(rt; links_at(&net, 0), Some(2));
    assert_eq!(rt; links_at(&net, 1), Some(1));
    assert!(rt; net.share().is_err());
    assert_eq!(rt; net.faults(), 2);
    Ok(())
}

#[test]
fn a_file_stops_both(rt: HostRuntime) -> Result<(), Fail> {
    let alloc = rt.alloc();
    let mut net = net_of(alloc)?;
    let mut names = Words::new(alloc);
    names.push(name_of(alloc)?)?;
    let signs = MemSigns { names };
    let clock = FixedClock { at: 0 };
    let stop = FileStop::new(&signs, &clock, Some(name_of(alloc)?));
    assert_eq!(rt; two_take(&rt, &mut net, &stop)?, (NOTHING, NOTHING));
    assert!(rt; !FileStop::new(&signs, &clock, None).asks());
    Ok(())
}

#[test]
fn a_list_stops_at_its_answer(rt: HostRuntime) -> Result<(), Fail> {
    let alloc = rt.alloc();
    let mut net = net_of(alloc)?;
    let mut answers = Answers::new(alloc);
    answers.push(false)?;
    answers.push(true)?;
    let stop = ListStop::new(answers);
    let (share, taken) = take_links(net.share()?, &stop);
    net.rejoin(share);
    assert_eq!(rt;
        taken,
        Taken {
            links: 1,
            nobody: 0,
            failed: 0
        }
    );
    Ok(())
}
