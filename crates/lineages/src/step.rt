// Steps, and their words: snapshots are s0, s1 and so on, and volumes v0, v1 and so on.
use ebs_holds::Holder;
use ebs_model::{Account, KeyNumber, SnapKey, VolKey};

/// What changes arrays, collects, or asks for what arrays have.
#[derive(Clone, Copy)]
pub enum Step {
    Change(Change),
    Collect(Collect),
    Ask(Ask),
}

#[derive(Clone, Copy)]
pub enum Change {
    /// `begin s2 v1`, or `begin v1` without blocks.
    Begin(Holder, Option<Holder>),
    /// `put v1 7 100`: the block 100 at index 7.
    Put(Holder, u32, u32),
    /// `fill v1 1000`: blocks at the indexes below 1000, each with the number of its index.
    Fill(Holder, u32),
    /// `days v1 30 5`: 30 times a block, and behind it a snapshot: s5 with a block at 5 more than s4, and so on.
    Days(Holder, u32, u32),
    /// `over v1 30 5`: the same with each block at index 0, over the one before.
    Over(Holder, u32, u32),
    /// `nights v1 30 5`: 30 snapshots, s5 and so on, and no block between.
    Nights(Holder, u32, u32),
    /// `seal s2`
    Seal(Holder),
    /// `drop s2`
    Drop(Holder),
    /// `drops 2 30`: s2, s3 and so on; `drops 30 2` begins with s30.
    Drops(u32, u32),
}

#[derive(Clone, Copy)]
pub enum Collect {
    /// `collect 64`: slices of 64 blocks until nothing waits; how many these were, and how many slots there are then.
    All(u32),
    /// `slice 64`: one of them; whether more wait.
    Slice(u32),
    /// `slots`: how many there are, and how many blocks wait.
    Slots,
}

#[derive(Clone, Copy)]
pub enum Ask {
    /// `own s2`: how many blocks its node keeps itself.
    Own(Holder),
    /// `get s2 7`: the block at an index.
    Get(Holder, u32),
    /// `sum s2 7 1000`: the sum of the blocks' numbers at so many indexes.
    Sum(Holder, u32, u32),
    /// `list s2 0 100`: indexes and blocks.
    List(Holder, u32, u32),
    /// `changed s1 s2 0 100`: the indexes with both blocks.
    Changed(Holder, Holder, u32, u32),
}

/// The step of a line.
pub fn read_step(line: &str) -> Option<Step> {
    let first = number(line, 1);
    match word(line, 0) {
        "collect" => Some(Step::Collect(Collect::All(first))),
        "slice" => Some(Step::Collect(Collect::Slice(first))),
        "slots" => Some(Step::Collect(Collect::Slots)),
        "drops" => Some(Step::Change(Change::Drops(first, number(line, 2)))),
        _ => read_holders(line),
    }
}

// A step whose first word behind its own is a holder.
fn read_holders(line: &str) -> Option<Step> {
    let Some(holder) = holder_of(word(line, 1)) else {
        return None;
    };
    match read_change(line, &holder) {
        Some(change) => Some(Step::Change(change)),
        None => asking(read_ask(line, &holder)),
    }
}

fn asking(ask: Option<Ask>) -> Option<Step> {
    match ask {
        Some(ask) => Some(Step::Ask(ask)),
        None => None,
    }
}

fn read_change(line: &str, holder: &Holder) -> Option<Change> {
    let first = number(line, 2);
    let second = number(line, 3);
    match word(line, 0) {
        "begin" => Some(Change::Begin(*holder, holder_of(word(line, 2)))),
        "put" => Some(Change::Put(*holder, first, second)),
        "fill" => Some(Change::Fill(*holder, first)),
        "days" => Some(Change::Days(*holder, first, second)),
        "over" => Some(Change::Over(*holder, first, second)),
        "nights" => Some(Change::Nights(*holder, first, second)),
        "seal" => Some(Change::Seal(*holder)),
        "drop" => Some(Change::Drop(*holder)),
        _ => None,
    }
}

fn read_ask(line: &str, holder: &Holder) -> Option<Ask> {
    let first = number(line, 2);
    let second = number(line, 3);
    match word(line, 0) {
        "own" => Some(Ask::Own(*holder)),
        "get" => Some(Ask::Get(*holder, first)),
        "sum" => Some(Ask::Sum(*holder, first, second)),
        "list" => Some(Ask::List(*holder, first, second)),
        "changed" => read_changed(line, holder),
        _ => None,
    }
}

fn read_changed(line: &str, holder: &Holder) -> Option<Ask> {
    let other = holder_of(word(line, 2))?;
    let start = number(line, 3);
    Some(Ask::Changed(*holder, other, start, number(line, 4)))
}

fn word(line: &str, place: usize) -> &str {
    line.split(" ").nth(place).unwrap_or("")
}

fn number(line: &str, place: usize) -> u32 {
    word(line, place).parse().unwrap_or(0)
}

fn holder_of(word: &str) -> Option<Holder> {
    if let Some(number) = word.strip_prefix("s") {
        return snapshot(number.parse().ok()?);
    }
    let number = word.strip_prefix("v")?;
    volume(number.parse().ok()?)
}

/// The snapshot with a number, which is below 2^28.
pub fn snapshot(number: u32) -> Option<Holder> {
    if number >= 1 << 28 {
        return None;
    }
    Some(Holder::snapshot(&SnapKey {
        account: Account::new(1),
        number: KeyNumber::new(number),
    }))
}

fn volume(number: u32) -> Option<Holder> {
    if number >= 1 << 28 {
        return None;
    }
    Some(Holder::volume(&VolKey {
        account: Account::new(1),
        number: KeyNumber::new(number),
    }))
}
