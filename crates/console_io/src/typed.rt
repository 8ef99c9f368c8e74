// Whether a person types the lines.
use std::io::IsTerminal;

// A terminal gives them, and another, most often the same, shows what is written to standard error.
pub fn is_typed(rt: HostRuntime) -> bool {
    rt.stdin().is_terminal() && rt.stderr().is_terminal()
}
