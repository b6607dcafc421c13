//! When a request is sent, sent again, and given up (RFC 8656, sections 8.1, 10.1 and 12.1; RFC
//! 8489, section 6.2.1).

ghost use Rattle.std.specs.Prelude.{◌≡◌, ◌*◌, ◌<◌, ◌≤◌, ◌^◌, List};
ghost use Rattle.stun_endpoints.specs.declared.endpoints.Endpoint.{Endpoint};
ghost use Rattle.turn_client_machine.specs.Tasks as machine;
ghost use Rattle.turn_client_state.specs.States as states;
ghost use Rattle.turn_client_state.specs.States.{setup_of, asked_with};

use crate::settings::Settings;
use turn_client_machine::{Kind, Pending, Request, Task};

/// A task that is due now.
pub(crate) fn begun_task(clock: u64) -> Task
    ensures { result ≡ machine.begun_task clock }
{
    let clock = clock as u128;
    Task {
        due: clock,
        deadline: clock + 40_000_000_000,
        pending: None,
        retries: 0,
    }
}

/// The end of a lifetime in seconds from a moment on.
pub(crate) fn end_of(since: u64, lifetime: u32) -> u128
    ensures { result ≡ states.end_of since lifetime }
{
    since as u128 + lifetime as u128 * 1_000_000_000
}

/// A task that was granted for a lifetime in seconds, from a moment on.
pub(crate) fn kept_task(since: u64, lifetime: u32) -> Task
    ensures { result ≡ machine.kept_task since lifetime }
{
    let end = end_of(since, lifetime);
    let half = since as u128 + lifetime as u128 * 500_000_000;
    Task {
        due: end.saturating_sub(60_000_000_000).max(half),
        deadline: end.saturating_sub(20_000_000_000),
        pending: None,
        retries: 0,
    }
}

/// A task whose request the server has challenged.
pub(crate) fn again_task(clock: u64, task: &Task) -> Task
    requires { task.now.retries < 255 }
    ensures { result ≡ machine.again_task clock task.now }
{
    Task {
        due: task.deadline.min(clock as u128),
        deadline: task.deadline,
        pending: None,
        retries: task.retries + 1,
    }
}

pub(crate) fn is_due(clock: u64, task: &Task) -> bool
    ensures { result ≡ machine.is_due clock task.now }
{
    task.due <= clock as u128
}

pub(crate) fn is_expired(clock: u64, task: &Task) -> bool
    ensures { result ≡ machine.is_expired clock task.now }
{
    task.deadline <= clock as u128
}

/// Whether the request under way has this transaction ID.
pub(crate) fn awaits(id: u128, task: &Task) -> bool
    ensures { result ≡ machine.awaits id task.now }
{
    match &task.pending {
        Some(pending) => pending.request.id == id,
        None => false,
    }
}

/// Whether a challenge is answered, after the one that is known.
pub(crate) fn may_retry(settings: &Settings, challenge: Option<u64>, code: u16, task: &Task) -> bool
    ensures { result ≡ machine.may_retry (setup_of settings.now) challenge code task.now }
{
    task.retries < settings.most_retries && (code == 438 || !challenge.is_some())
}

/// How often the request under way was sent.
fn sends_so_far(task: &Task) -> u8
    ensures { result ≡ machine.sends_so_far task.now }
{
    match &task.pending {
        Some(pending) => pending.sends,
        None => 0,
    }
}

/// The request to send: the one under way, or a new one.
fn request_now(clock: u64, fresh: u128, kind: Kind, challenge: Option<u64>, task: &Task) -> Request
    ensures { result ≡ machine.request_now clock fresh kind challenge task.now }
{
    match &task.pending {
        Some(pending) => pending.request,
        None => Request {
            id: fresh,
            kind,
            challenge,
            since: clock,
        },
    }
}

/// A time, doubled so many times.
fn doubled(time: u64, times: u8) -> u128
    requires { times ≤ 32 }
    ensures value { result ≡ time * 2 ^ times }
    ensures bound { result < 2 ^ 97 }
{
    time as u128 * (1 << times)
}

/// The wait after the n-th sending of a request.
fn wait_after(settings: &Settings, sends: u8) -> u128
    ensures value { result ≡ states.wait_after settings.now sends }
    ensures bound { result < 2 ^ 97 }
{
    if sends < settings.most_sends {
        doubled(settings.rto, sends.saturating_sub(1).min(32))
    } else {
        settings.last_wait as u128
    }
}

/// The wait without the nanosecond that the machine adds.
fn wait_less(settings: &Settings, sends: u8) -> u128
    ensures value { result ≡ states.wait_less settings.now sends }
    ensures bound { result < 2 ^ 97 }
{
    wait_after(settings, sends).saturating_sub(1)
}

/// A due task after a poll before its deadline.
pub(crate) fn turned(
    settings: &Settings,
    clock: u64,
    fresh: u128,
    kind: Kind,
    challenge: Option<u64>,
    task: &Task,
) -> Task
    ensures { result ≡ machine.turned (setup_of settings.now) clock fresh kind challenge task.now }
{
    let sends = sends_so_far(task);
    if sends < settings.most_sends {
        let request = request_now(clock, fresh, kind, challenge, task);
        let due = clock as u128 + 1 + wait_less(settings, sends + 1);
        Task {
            due: task.deadline.min(due),
            deadline: task.deadline,
            pending: Some(Pending {
                request,
                sends: sends + 1,
            }),
            retries: task.retries,
        }
    } else {
        Task {
            due: task.deadline,
            deadline: task.deadline,
            pending: task.pending,
            retries: task.retries,
        }
    }
}

/// The request that such a poll sends.
pub(crate) fn turn_request(
    settings: &Settings,
    clock: u64,
    fresh: u128,
    kind: Kind,
    challenge: Option<u64>,
    task: &Task,
) -> Option<Request>
    ensures { (others : List Endpoint) → asked_with result others
        ≡ machine.turn_output (setup_of settings.now) clock fresh kind challenge others task.now }
{
    if sends_so_far(task) < settings.most_sends {
        Some(request_now(clock, fresh, kind, challenge, task))
    } else {
        None
    }
}
