// The machine's own clock.
use std::rt::Clock;

// Seconds since 1970; none before.
pub fn seconds(rt: HostRuntime) -> u64 {
    rt.since_1970().map_or(0, |time| time.as_secs())
}
