//! Posts that are taken from the rings and handed to the core.
ghost use Rattle.std.specs.Prelude.{◌≡◌, ◌+◌, ◌<◌, ◌≤◌, All, length};
ghost use Rattle.hc_records.specs.declared.limits.TheConstants.{TASKS};
ghost use Rattle.hc_events.specs.Steps.{answer_to, entries_after};
ghost use Rattle.hc_rings.specs.declared.posts.TheConstants.{POSTS_WAITING};
ghost use Rattle.hc_conductor.specs.Conducting.{SameChanges};
ghost use Rattle.hc_conductor.specs.Taking.{EachTakesKnown, EachTakesWaiting, TakesFrom, TakesFromAll, TakesKnown, TakesPosts, TakesPostsBy, TakesSteadyPosts, TakesWaiting, event_by, event_of, one_if, steady_event_of, was_accepted};

use crate::conductor::Conductor;
use hc_core::keeping::Core;
use hc_records::limits::TASKS;
use hc_rings::{POSTS_WAITING, PostBuffer, PostReceiver};

/// The number of posts taken from the rings, accepted and refused.
#[derive(Clone, Copy, Debug, PartialEq, Eq)]
pub struct Taken {
    /// The posts whose values are sent from now on.
    pub accepted: u32,
    /// The posts for an epoch that the core does not accept. They changed nothing.
    pub refused: u32,
}

/// The rule by which the core accepts posts when they are taken.
#[derive(Clone, Copy)]
pub(crate) enum PostRule {
    /// It accepts posts made for the present epoch.
    Present,
    /// It accepts posts made since the last edit that changed their task.
    Steady,
}

// The count before any post.
const NOTHING: Taken = Taken {
    accepted: 0,
    refused: 0,
};

/// Returns the count with one more post, accepted or refused.
fn with_one(others: Taken, is_accepted: bool) -> Taken
    requires { others.accepted + others.refused < POSTS_WAITING }
    ensures accepted { result.accepted ≡ one_if is_accepted + others.accepted }
    ensures all { result.accepted + result.refused ≡ 1 + (others.accepted + others.refused) }
{
    let Taken { accepted, refused } = others;
    if is_accepted {
        Taken {
            accepted: accepted + 1,
            refused,
        }
    } else {
        Taken {
            accepted,
            refused: refused + 1,
        }
    }
}

/// Hands a task's post to the core, and returns whether the core accepted it.
fn is_accepted(core: &mut Core, task: u8, post: &PostBuffer) -> bool
    ensures core { core.new ≡ record core.old { history = entries_after core.old.history (event_of task post.now) } }
    ensures accepted { was_accepted (answer_to core.old.history (event_of task post.now)) ≡ result }
{
    match core.post(task, post.epoch(), post.bytes()) {
        Ok(()) => true,
        Err(_) => false,
    }
}

/// Hands a task's post to the core as a steady one, and returns whether the core accepted it.
fn is_steadily_accepted(core: &mut Core, task: u8, post: &PostBuffer) -> bool
    ensures core { core.new ≡ record core.old { history = entries_after core.old.history (steady_event_of task post.now) } }
    ensures accepted { was_accepted (answer_to core.old.history (steady_event_of task post.now)) ≡ result }
{
    match core.post_steady(task, post.epoch(), post.bytes()) {
        Ok(()) => true,
        Err(_) => false,
    }
}

/// Hands a task's post to the core by a rule, and returns whether the core accepted it.
fn is_accepted_by(core: &mut Core, rule: PostRule, task: u8, post: &PostBuffer) -> bool
    ensures core { core.new ≡ record core.old { history = entries_after core.old.history (event_by rule task post.now) } }
    ensures accepted { was_accepted (answer_to core.old.history (event_by rule task post.now)) ≡ result }
{
    match rule {
        PostRule::Present => is_accepted(core, task, post),
        PostRule::Steady => is_steadily_accepted(core, task, post),
    }
}

/// Hands at most `most` posts of a task's ring to the core by a rule, the oldest first, and counts them. A ring has at most
/// four posts, which bounds the recursion.
fn take_some(core: &mut Core, rule: PostRule, task: u8, ring: &mut PostReceiver, most: u32) -> Taken
    requires { most ≤ POSTS_WAITING }
    ensures taken { TakesFrom rule task most core.old core.new ring.old ring.new result }
    ensures known { TakesKnown most ring.old ring.new }
    ensures waiting { TakesWaiting most ring.old ring.new }
{
    if most == 0 {
        return NOTHING;
    }
    let Some(post) = ring.take() else {
        return NOTHING;
    };
    let accepted = is_accepted_by(core, rule, task, &post);
    ring.give_back(post);
    with_one(take_some(core, rule, task, ring, most - 1), accepted)
}

/// Hands at most `most` posts of each ring to the core by a rule, and counts them. The first ring is the given task's, the next
/// one the next task's. There are at most eight, which bounds the recursion.
pub(crate) fn take_all(
    core: &mut Core,
    rule: PostRule,
    task: u8,
    rings: &mut [PostReceiver],
    most: &[u32],
) -> Taken
    requires tasks { task + length rings.old ≤ TASKS }
    requires each { length most.now ≡ length rings.old }
    requires few { All (λ n. n ≤ POSTS_WAITING) most.now }
    ensures taken { TakesFromAll rule task core.old core.new rings.old rings.new result }
    ensures known { EachTakesKnown most.now rings.old rings.new }
    ensures waiting { EachTakesWaiting most.now rings.old rings.new }
{
    let Some((ring, others)) = rings.split_first_mut() else {
        return NOTHING;
    };
    let Some((count, counts)) = most.split_first() else {
        unreachable!()
    };
    let first = take_some(core, rule, task, ring, *count);
    let rest = take_all(core, rule, task + 1, others, counts);
    Taken {
        accepted: first.accepted + rest.accepted,
        refused: first.refused + rest.refused,
    }
}

impl Conductor {
    ghost use Rattle.std.specs.Prelude.{List, replicate};
    ghost use Rattle.hc_rings.specs.declared.posts.PostSender.{PostSender};
    ghost use Rattle.hc_conductor.specs.Together.{AreJoined, EachRing};

    /// Takes at most four posts of each task, and hands each to the core by a rule.
    fn take_by(&mut self, rule: PostRule) -> Taken
        ensures taken { TakesPostsBy rule self.old self.new result }
        ensures waiting { EachTakesWaiting (replicate TASKS POSTS_WAITING) self.old.rings self.new.rings }
        ensures joined { (seats : List PostSender) → EachRing AreJoined seats self.old.rings → EachRing AreJoined seats self.new.rings }
        ensures changes { SameChanges self.old self.new }
    {
        let most = [POSTS_WAITING as u32; TASKS as usize];
        take_all(&mut self.core, rule, 0, &mut self.rings, &most)
    }

    /// Takes at most four posts of each task, and hands each to the core for its epoch: the tasks ascending, each task's posts
    /// in order. The posts that are known to wait are among them, at most four of a task. A post for another epoch than the
    /// present one is refused, and changes nothing. Each buffer goes back to its seat, unless no place is found for it. A post
    /// made during this call may be left for the next one. It allocates nothing and waits for nobody.
    pub fn take_posts(&mut self) -> Taken
        ensures taken { TakesPosts self.old self.new result }
        ensures waiting { EachTakesWaiting (replicate TASKS POSTS_WAITING) self.old.rings self.new.rings }
        ensures joined { (seats : List PostSender) → EachRing AreJoined seats self.old.rings → EachRing AreJoined seats self.new.rings }
        ensures changes { SameChanges self.old self.new }
    {
        self.take_by(PostRule::Present)
    }

    /// Takes at most four posts of each task, and hands each to the core as a steady post for its epoch: the tasks ascending,
    /// each task's posts in order. The posts that are known to wait are among them, at most four of a task. The core accepts a
    /// post if no edit since its epoch changed the task; a refused post changes nothing. Each buffer goes back to its seat,
    /// unless no place is found for it. A post made during this call may be left for the next one. It allocates nothing and
    /// waits for nobody.
    pub fn take_steady_posts(&mut self) -> Taken
        ensures taken { TakesSteadyPosts self.old self.new result }
        ensures waiting { EachTakesWaiting (replicate TASKS POSTS_WAITING) self.old.rings self.new.rings }
        ensures joined { (seats : List PostSender) → EachRing AreJoined seats self.old.rings → EachRing AreJoined seats self.new.rings }
        ensures changes { SameChanges self.old self.new }
    {
        self.take_by(PostRule::Steady)
    }
}
