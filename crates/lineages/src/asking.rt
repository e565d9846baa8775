// Steps that ask for what arrays have.
use crate::played::number_of;
use crate::step::Ask;
use ebs_holds::{Holder, Holdings};
use ebs_listing::{ChangedEntry, PageEntry, list_blocks, list_changed};
use std::io;

pub fn answer(rt: &HostRuntime, holdings: &Holdings, step: Ask) -> io::Result<()> {
    match step {
        Ask::Own(holder) => println!(rt; "{}", own_len(holdings, &holder)),
        Ask::Get(holder, index) => match holdings.find(&holder, index) {
            Some(block) => println!(rt; "{}", number_of(&block)),
            None => println!(rt; "none"),
        },
        Ask::Sum(holder, first, count) => println!(rt; "{}", sum(holdings, &holder, first, count)),
        Ask::List(holder, start, max) => list(rt, holdings, &holder, start, max),
        Ask::Changed(first, second, start, max) => {
            list_changes(rt, holdings, &first, &second, start, max)
        }
    }
}

fn own_len(holdings: &Holdings, holder: &Holder) -> u64 {
    match holdings.node(holder) {
        Some(node) => holdings.lineage().own_len(node),
        None => 0,
    }
}

fn sum(holdings: &Holdings, holder: &Holder, first: u32, count: u32) -> u64 {
    let mut sum = 0u64;
    for place in 0..count {
        if let Some(block) = holdings.find(holder, first.saturating_add(place)) {
            sum = sum.wrapping_add(u64::from(number_of(&block)));
        }
    }
    sum
}

fn list(
    rt: &HostRuntime,
    holdings: &Holdings,
    holder: &Holder,
    start: u32,
    max: u32,
) -> io::Result<()> {
    let Some(node) = holdings.node(holder) else {
        return println!(rt; "none");
    };
    let page = list_blocks(rt.alloc(), holdings.lineage(), node, start, max)?;
    write_entries(rt, page.entries.as_slice())?;
    write_next(rt, page.next)
}

fn write_entries(rt: &HostRuntime, entries: &[PageEntry]) -> io::Result<()> {
    for entry in entries {
        print!(rt; "{}:{} ", entry.index, number_of(&entry.block))?;
    }
    Ok(())
}

fn write_next(rt: &HostRuntime, next: Option<u32>) -> io::Result<()> {
    match next {
        Some(index) => println!(rt; "then {index}"),
        None => println!(rt; "and no more"),
    }
}

fn list_changes(
    rt: &HostRuntime,
    holdings: &Holdings,
    first: &Holder,
    second: &Holder,
    start: u32,
    max: u32,
) -> io::Result<()> {
    let (Some(one), Some(other)) = (holdings.node(first), holdings.node(second)) else {
        return println!(rt; "none");
    };
    let page = list_changed(rt.alloc(), holdings.lineage(), one, other, start, max)?;
    for change in page.entries.as_slice() {
        write_change(rt, change)?;
    }
    write_next(rt, page.next)
}

fn write_change(rt: &HostRuntime, change: &ChangedEntry) -> io::Result<()> {
    let index = change.index;
    match (change.first, change.second) {
        (Some(one), Some(other)) => print!(rt;
            "{index}:{}/{} ",
            number_of(&one),
            number_of(&other)
        ),
        (Some(one), None) => print!(rt; "{index}:{}/none ", number_of(&one)),
        (None, Some(other)) => print!(rt; "{index}:none/{} ", number_of(&other)),
        (None, None) => print!(rt; "{index}:none/none "),
    }
}
