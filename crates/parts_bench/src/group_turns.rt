//! Members that join, drain and hand back, turn after turn.
ghost use Rattle.std.specs.Prelude.{◌≡◌, ℕ, ◌+◌, ◌*◌, ◌<◌, ◌≤◌, Contains, IfSome, length};
ghost use Rattle.std.specs.Prelude.{All as AllOf};
ghost use Rattle.std.specs.List.{All};
ghost use Rattle.group_list.specs.declared.view.Stage.TheVariants.{Free};
ghost use Rattle.group_list.specs.Log.{EachOnce};
ghost use Rattle.group_list.specs.Calls.{view, members_of, room_of, numbers_of, IsOf, IsSame};
ghost use Rattle.parts_bench.specs.Turns.{HaveJoined, IsIdle, IsReady, JoinedMore};

use group_list::{Batch, GroupList, Member, Role};
use std::alloc::Global;
use std::sync::Wait;
use std::thread;
use std::thread::Threads;

/// Four members take turns at most, and the first one looks at the list afterwards.
const MEMBERS: u32 = 5;

/// In how many threads members take turns.
#[derive(Clone, Copy)]
pub enum Threading {
    One,
    Two,
    Four,
}

impl Threading {
    pub fn threads(self) -> u32
        ensures some { 0 < result }
        ensures few { result ≤ 4 }
    {
        match self {
            Threading::One => 1,
            Threading::Two => 2,
            Threading::Four => 4,
        }
    }
}

/// A member with room for a batch, and what it did in its turns.
#[derive(Drop)]
pub struct Player {
    pub member: Member,
    pub batch: Batch,
    pub counts: Counts,
}

/// What members did in their turns.
#[derive(Clone, Copy)]
pub struct Counts {
    pub publications: u64,
    /// How many it handed back.
    pub handed_back: u64,
    /// How often a second look found a handing back that the first one had found.
    pub found_twice: u64,
}

impl Counts {
    fn none() -> Counts {
        Counts {
            publications: 0,
            handed_back: 0,
            found_twice: 0,
        }
    }

    fn and(self, other: Counts) -> Counts {
        Counts {
            publications: self.publications.saturating_add(other.publications),
            handed_back: self.handed_back.saturating_add(other.handed_back),
            found_twice: self.found_twice.saturating_add(other.found_twice),
        }
    }
}

/// What all turns came to.
#[derive(Clone, Copy)]
pub struct Outcome {
    pub counts: Counts,
    /// Whether no one waited at the end.
    pub empty: bool,
}

// A leader hands all of its batch back.
fn hand_all_back(list: &GroupList, member: &mut Member, batch: &Batch)
    requires own { IsOf list.now member.old }
    requires owes { AllOf (Contains (view member.old).owes) (numbers_of batch.now) }
    requires once { EachOnce (numbers_of batch.now) }
    ensures own { IsOf list.now member.new × IsSame member.old member.new }
    ensures stage { (view member.new).stage ≡ (view member.old).stage }
    ensures joined { JoinedMore 0 member.old member.new }
{
    let numbers = batch.numbers();
    for i in 0..numbers.len() {
        list.hand_back(member, numbers[i]);
    }
}

/// Joins, leads where no one waited, and comes back. How many it handed back.
pub fn take_turn<R: Wait>(rt: &R, list: &GroupList, member: &mut Member, batch: &mut Batch) -> usize
    requires idle { IsIdle list.now member.old }
    requires batch { room_of batch.old ≡ members_of list.now }
    ensures idle { IsIdle list.now member.new }
    ensures joined { JoinedMore 1 member.old member.new }
    ensures batch { room_of batch.new ≡ room_of batch.old }
{
    let handed_back = match list.join(member) {
        Role::Leader => {
            list.drain(rt, member, batch);
            hand_all_back(list, member, batch);
            batch.numbers().len()
        }
        Role::Follower => 0,
    };
    list.await_back(rt, member);
    handed_back
}

// All turns of one member.
fn take_turns<R: Wait>(rt: &R, list: &GroupList, player: &mut Player, turns: u32)
    requires { IsReady list.now player.old }
    ensures ready { IsReady list.now player.new }
    ensures joined { JoinedMore turns player.old.member player.new.member }
{
    for _ in 0..turns {
        let handed_back = take_turn(rt, list, &mut player.member, &mut player.batch);
        let again = list.was_handed_back(&mut player.member);
        player.counts = player.counts.and(Counts {
            publications: 1,
            handed_back: handed_back as u64,
            found_twice: again as u64,
        });
    }
}

// Each member takes its turns, in so many threads.
fn run_players<R: Threads + Wait + Sync>(
    rt: &R,
    list: &GroupList,
    players: &mut [Player],
    threads: u32,
    turns: u32,
)
    requires threads { 0 < threads }
    requires each { All (IsReady list.now) players.old }
    ensures each { All (IsReady list.now) players.new }
    ensures joined { HaveJoined turns players.old players.new }
    ensures len { length players.new ≡ length players.old }
{
    thread::for_each_mut(
        rt,
        players,
        threads as usize,
        &|_, player| take_turns(rt, list, player, turns),
    );
}

// The member gives the number to a player. None where it doesn't have the number, or for want of memory.
fn player_of(alloc: Global, list: &GroupList, first: &mut Member, number: u32) -> Option<Player>
    requires idle { IsIdle list.now first.old }
    requires size { members_of list.now ≡ MEMBERS }
    ensures idle { IsIdle list.now first.new }
    ensures ready { IfSome result (λ p. IsReady list.now p) }
{
    let member = list.split(first, number)?;
    let batch = Batch::new(alloc, MEMBERS).ok()?;
    Some(Player {
        member,
        batch,
        counts: Counts::none(),
    })
}

// Players of the numbers below this one.
fn players_below(
    alloc: Global,
    list: &GroupList,
    first: &mut Member,
    count: u32,
) -> Option<Vec<Player>>
    requires idle { IsIdle list.now first.old }
    requires size { members_of list.now ≡ MEMBERS }
    ensures idle { IsIdle list.now first.new }
    ensures each { IfSome result (λ players. All (IsReady list.now) players.items) }
{
    let mut players = Vec::with_capacity(alloc, count as usize).ok()?;
    for number in 0..count {
        let player = player_of(alloc, list, first, number)?;
        players.push_reserved(player);
    }
    Some(players)
}

// What all of them did.
fn counted(players: &[Player]) -> Counts {
    let mut all = Counts::none();
    for player in players {
        all = all.and(player.counts);
    }
    all
}

// Whether the list is empty: the member joins as the leader of a batch of its own. None for want of memory.
fn finds_no_one<R: Wait>(
    rt: &R,
    alloc: Global,
    list: &GroupList,
    member: &mut Member,
) -> Option<bool>
    requires idle { IsIdle list.now member.old }
    requires size { members_of list.now ≡ MEMBERS }
{
    let mut batch = Batch::new(alloc, MEMBERS).ok()?;
    let Role::Leader = list.join(member) else {
        return Some(false);
    };
    list.drain(rt, member, &mut batch);
    hand_all_back(list, member, &batch);
    list.await_back(rt, member);
    Some(batch.numbers() == [member.number()].as_slice())
}

/// So many members take turns on a new list, each in a thread of its own. None where player_of gives none, or for want of
/// memory.
pub fn all_take_turns<R: Threads + Wait + Sync>(
    rt: &R,
    alloc: Global,
    threading: Threading,
    turns: u32,
) -> Option<Outcome> {
    let threads = threading.threads();
    let (list, mut first) = GroupList::new(alloc, MEMBERS).ok()?;
    let mut players = players_below(alloc, &list, &mut first, threads)?;
    run_players(rt, &list, players.as_mut_slice(), threads, turns);
    let counts = counted(players.as_slice());
    let empty = finds_no_one(rt, alloc, &list, &mut first)?;
    Some(Outcome { counts, empty })
}
