//! The state of a task's image: how far its data answer the last sending of the task.
ghost use Rattle.std.specs.Prelude.{◌≡◌, ◌≤◌, length, slice_index_or};
ghost use Rattle.hc_records.specs.declared.limits.TheConstants.{MOST_DATAGRAMS};
ghost use Rattle.hc_c.specs.States.{count_since, is_since, state_number, task_state};

/// No datagram of the task has data that answer its last sending.
pub const NO_DATA: u8 = 0;

/// Some datagrams of the task have data that answer its last sending, and others do not.
pub const INCOMPLETE: u8 = 1;

/// Each datagram of the task has data that answer its last sending.
pub const COMPLETE: u8 = 2;

/// Returns whether a datagram has data that answer a serial or a later one.
pub fn is_since(first: u64, serial: Option<u64>) -> bool
    ensures { result ≡ is_since first serial }
{
    match serial {
        Some(serial) => first <= serial,
        None => false,
    }
}

/// Returns the state of a task with `all` datagrams, of which `since` have data that answer its last sending.
pub fn state_number(since: usize, all: usize) -> u8
    ensures { result ≡ state_number since all }
{
    if since == all {
        COMPLETE
    } else if since == 0 {
        NO_DATA
    } else {
        INCOMPLETE
    }
}

/// Counts the datagrams whose data answer a serial or a later one. A task has at most 16, which bounds the recursion.
fn count_since(first: u64, serials: &[Option<u64>]) -> u8
    requires { length serials.now ≤ MOST_DATAGRAMS }
    ensures count { result ≡ count_since first serials.now }
    ensures most { result ≤ length serials.now }
{
    match serials {
        [] => 0,
        [serial, rest @ ..] => u8::from(is_since(first, *serial)) + count_since(first, rest),
    }
}

/// Returns the state of a task whose last sending begins with a serial, from the serials that its datagrams' data answer.
pub fn task_state(first: u64, serials: &[Option<u64>]) -> u8
    requires { length serials.now ≤ MOST_DATAGRAMS }
    ensures { result ≡ task_state first serials.now }
{
    state_number(usize::from(count_since(first, serials)), serials.len())
}

/// Returns the first serial of a task's last sending; 0 before the first one, and for a task over 7.
pub fn first_serial(sent_from: &[u64], task: u8) -> u64
    ensures { result ≡ slice_index_or sent_from.now task 0 }
{
    match sent_from.get(usize::from(task)) {
        Some(first) => *first,
        None => 0,
    }
}
