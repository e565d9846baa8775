// The tests on a snapshot's row, over rows made by hand: for its owner, for one it is shared with, and for a stranger.
use Verdict::{Fine, NotFound, NotOwner, State};
use ebs_model::{
    Account, Accounts, Indexes, KeyNumber, Kind, Line, LockState, Moment, Refusal, SnapKey,
    SnapRow, StateName, Tags, Tier, check_base, check_open, check_own, check_ready, check_seen,
};
use std::alloc::{AllocError, Global};
use std::process::Abort;
use std::test::Fail;

/// What a test says.
#[derive(Clone, Copy, PartialEq, Eq)]
enum Verdict {
    Fine,
    NotFound,
    NotOwner,
    State(StateName),
    Other,
}

fn verdict_of(tested: &Result<(), Refusal>) -> Verdict {
    match tested {
        Ok(()) => Fine,
        Err(Refusal::NotFound(Kind::Snapshot)) => NotFound,
        Err(Refusal::NotOwner) => NotOwner,
        Err(Refusal::WrongState(name)) => State(*name),
        Err(_) => Verdict::Other,
    }
}

fn told(tested: Result<(), Refusal>) -> Verdict {
    let verdict = verdict_of(&tested);
    drop(tested);
    verdict
}

/// A row of account 1 that is shared with account 2, and what is told at moment 1000 of whether it is seen, owned, open,
/// ready and a base.
#[derive(Clone, Copy)]
struct Case {
    completed: bool,
    last: u64,
    public: bool,
    tier: Tier,
    bin_end: Option<Moment>,
    owner: [Verdict; 5],
    sharer: [Verdict; 5],
    stranger: [Verdict; 5],
}

const UNSEEN: [Verdict; 5] = [NotFound; 5];

// Its upload ends at moment 1001.
const PENDING: Case = Case {
    completed: false,
    last: 401,
    public: false,
    tier: Tier::Standard,
    bin_end: None,
    owner: [
        Fine,
        Fine,
        Fine,
        State(StateName::Pending),
        State(StateName::Pending),
    ],
    sharer: UNSEEN,
    stranger: UNSEEN,
};

const FAILED: Case = Case {
    last: 400,
    public: true,
    owner: [
        Fine,
        Fine,
        State(StateName::Error),
        State(StateName::Error),
        State(StateName::Error),
    ],
    ..PENDING
};

const COMPLETED: Case = Case {
    completed: true,
    owner: [Fine, Fine, State(StateName::Completed), Fine, Fine],
    sharer: [Fine, NotOwner, NotOwner, Fine, Fine],
    ..PENDING
};

const ARCHIVED: Case = Case {
    completed: true,
    public: true,
    tier: Tier::Archived,
    owner: [
        Fine,
        Fine,
        State(StateName::Completed),
        State(StateName::Archived),
        State(StateName::Archived),
    ],
    ..PENDING
};

const CASES: [Case; 8] = [
    PENDING,
    FAILED,
    COMPLETED,
    Case {
        public: true,
        stranger: [Fine, NotOwner, NotOwner, Fine, Fine],
        ..COMPLETED
    },
    ARCHIVED,
    Case {
        tier: Tier::Temporary {
            until: Moment { second: 1000 },
        },
        ..ARCHIVED
    },
    Case {
        tier: Tier::Temporary {
            until: Moment { second: 1001 },
        },
        owner: [
            Fine,
            Fine,
            State(StateName::Completed),
            Fine,
            State(StateName::Temporary),
        ],
        sharer: [Fine, NotOwner, NotOwner, Fine, State(StateName::Temporary)],
        ..COMPLETED
    },
    Case {
        public: true,
        bin_end: Some(Moment { second: 1001 }),
        owner: UNSEEN,
        sharer: UNSEEN,
        ..COMPLETED
    },
];

fn row_of(alloc: Global, key: SnapKey, case: &Case) -> Result<SnapRow, AllocError> {
    let shared = vec![in alloc; Account::new(2)]?;
    Ok(SnapRow {
        key,
        size: 1,
        line: Line {
            of_volume: false,
            account: key.account,
            number: key.number,
        },
        parent: None,
        volume: None,
        policy: None,
        start: Moment { second: 300 },
        timeout: 10,
        last: Moment { second: case.last },
        completed: case.completed,
        put: Indexes::new(alloc),
        description: None,
        tags: Tags::new(alloc),
        shared: Accounts::from_vec(shared),
        public: case.public,
        lock: LockState::None,
        tier: case.tier,
        bin_end: case.bin_end,
    })
}

fn all_verdicts(row: &SnapRow, account: Account, key: &SnapKey) -> [Verdict; 5] {
    let now = Moment { second: 1000 };
    [
        told(check_seen(row, account, key, now)),
        told(check_own(row, account, key, now)),
        told(check_open(row, account, key, now)),
        told(check_ready(row, account, key, now)),
        told(check_base(row, account, key, now)),
    ]
}

/// What is told of a case to its owner, to the one it is shared with, and to a stranger.
fn told_to_three(alloc: Global, case: &Case) -> Result<[[Verdict; 5]; 3], AllocError> {
    let key = SnapKey {
        account: Account::new(1),
        number: KeyNumber::new(0),
    };
    let row = row_of(alloc, key, case)?;
    let owner = all_verdicts(&row, key.account, &key);
    let sharer = all_verdicts(&row, Account::new(2), &key);
    let stranger = all_verdicts(&row, Account::new(3), &key);
    drop(row);
    Ok([owner, sharer, stranger])
}

fn play(rt: &impl Abort, alloc: Global, cases: &[Case]) -> Result<(), Fail> {
    for case in cases {
        let told = told_to_three(alloc, case)?;
        assert!(rt; told == [case.owner, case.sharer, case.stranger]);
    }
    Ok(())
}

#[test]
fn owner_sharer_and_stranger_are_told_apart(rt: HostRuntime) -> Result<(), Fail> {
    play(&rt, rt.alloc(), &CASES)
}
