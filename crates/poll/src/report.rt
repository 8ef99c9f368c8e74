// The day report, on standard output.
use day_report::{LINE_MOST, ReportError, STRIP_MOST};
use paths_and_locks::front;
use poll_days::Span;
use poll_words::say;
use refusal::Numbered;

// A heading, and a line for each day of the span. Where a person looks, the days' strips follow on standard error.
pub fn show(
    rt: HostRuntime,
    terminal: bool,
    path: &[u8],
    image: &[u8],
    figures: &[u32],
    span: Span,
) {
    let mut text = [0u8; LINE_MOST];
    let answer = day_report::put_heading(&mut text);
    tell(rt, path, answer, &text);
    for day in span.from..span.end {
        one_day(rt, path, image, figures, day);
    }
    if terminal {
        for day in span.from..span.end {
            strip(rt, image, day);
        }
    }
}

fn strip(rt: HostRuntime, image: &[u8], day: u8) {
    let mut text = [0u8; STRIP_MOST];
    // Where there is none, the report has said why.
    if let Ok(n) = day_report::put_strip(image, day, &mut text) {
        let _ = rt.stderr().write_all(front(&text, n));
    }
}

fn one_day(rt: HostRuntime, path: &[u8], image: &[u8], figures: &[u32], day: u8) {
    let mut text = [0u8; LINE_MOST];
    let answer = day_report::put_day(image, figures, day, &mut text);
    tell(rt, path, answer, &text);
}

fn tell(rt: HostRuntime, path: &[u8], answer: Result<usize, ReportError>, text: &[u8]) {
    match answer {
        Ok(n) => {
            let _ = rt.stdout().write_all(front(text, n));
        }
        Err(error) => {
            say::refused(rt, path, error.number());
        }
    }
}
