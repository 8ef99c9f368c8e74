// A poll from the log's file to its report.
use crate::arguments::{Chosen, Options};
use crate::locks::Kind;
use crate::{arguments, locks, meter, report};
use day_rows::FIGURES_MOST;
use file_io::PATH_ROOM;
use log_header::Header;
use paths_and_locks::front;
use poll_days::{End, Job, Plan, Span};
use poll_line::Wire;
use poll_words::say;
use refusal::Numbered;
use std::io::IsTerminal;

// One byte more than the longest file has, so that a longer one shows.
const FILE_ROOM: usize = log_file::FILE_MOST + 1;

// What the command names: the line, the meter's address on it, and the log's file.
#[derive(Clone, Copy, Drop)]
struct Command<'a> {
    // Of this machine.
    rt: HostRuntime,
    device: &'a [u8],
    address: u8,
    path: &'a [u8],
}

// What of the log is asked for, and how.
#[derive(Clone, Copy)]
struct Scope {
    header: Header,
    span: Span,
    options: Options,
}

// Whether all went well; where not, what did not is said.
pub fn poll(rt: HostRuntime) -> bool {
    let mut device_room = [0u8; PATH_ROOM];
    let device = file_io::word(rt, arguments::DEVICE, &mut device_room);
    let mut path_room = [0u8; PATH_ROOM];
    let path = file_io::word(rt, arguments::POLLED_LOG, &mut path_room);
    let Some(address) = arguments::byte_argument(rt, arguments::ADDRESS) else {
        return say::wrong_address(rt);
    };
    let command = Command {
        rt,
        device,
        address,
        path,
    };
    command.on_file()
}

impl Command<'_> {
    // The log is read once its file is locked: what another poll saved before is not lost.
    fn on_file(&self) -> bool {
        let mut lock = [0u8; PATH_ROOM];
        let Some(n) = locks::take(self.rt, Kind::LogFile, self.path, &mut lock) else {
            return false;
        };
        let well = self.loaded();
        locks::left(self.rt, front(&lock, n));
        well
    }

    fn loaded(&self) -> bool {
        let mut file = [0u8; FILE_ROOM];
        match file_io::contents(self.rt, self.path, &mut file) {
            Ok(n) => self.read(front(&file, n)),
            Err(why) => say::failed(self.rt, self.path, why),
        }
    }

    fn read(&self, file: &[u8]) -> bool {
        let mut image = [0u8; FILE_ROOM];
        let mut figures = [0u32; FIGURES_MOST];
        match log_file::read_file(file, &mut image, &mut figures) {
            Ok(length) if length <= FILE_ROOM => self.on_log(&mut image[..length], &mut figures),
            Ok(_) => false,
            Err(error) => say::refused(self.rt, self.path, error.number()),
        }
    }

    fn on_log(&self, image: &mut [u8], figures: &mut [u32]) -> bool {
        let options = arguments::said_options(self.rt);
        let Some(header) = log_header::sound(image) else {
            return say::refused(self.rt, self.path, refusal::UNSOUND);
        };
        let Some(span) = span_of(options.chosen, header.days) else {
            return say::refused(self.rt, self.path, refusal::NOT_IN_LOG);
        };
        let scope = Scope {
            header,
            span,
            options,
        };
        self.on_line(image, figures, scope)
    }

    fn on_line(&self, image: &mut [u8], figures: &mut [u32], scope: Scope) -> bool {
        let mut lock = [0u8; PATH_ROOM];
        let Some(n) = locks::take(self.rt, Kind::Line, self.device, &mut lock) else {
            return false;
        };
        let well = self.on_device(image, figures, scope);
        locks::left(self.rt, front(&lock, n));
        well
    }

    // Nothing is written to what is no terminal line.
    fn on_device(&self, image: &mut [u8], figures: &mut [u32], scope: Scope) -> bool {
        let rt = self.rt;
        match file_io::open_device(rt, self.device) {
            Ok(line) => {
                if !line.is_terminal() {
                    return say::no_line(rt, self.device);
                }
                let wire = Wire {
                    rt,
                    device: self.device,
                    line,
                    address: self.address,
                    terminal: rt.stderr().is_terminal(),
                    refuses: true,
                };
                on_wire(wire, self.path, image, figures, scope)
            }
            Err(why) => say::failed(rt, self.device, why),
        }
    }
}

fn span_of(chosen: Chosen, days: u8) -> Option<Span> {
    match chosen {
        Chosen::All => Some(Span { from: 0, end: days }),
        Chosen::One(day) if day < days => Some(Span {
            from: day,
            end: day + 1,
        }),
        Chosen::One(_) | Chosen::Unread => None,
    }
}

fn on_wire(wire: Wire, path: &[u8], image: &mut [u8], figures: &mut [u32], scope: Scope) -> bool {
    let options = scope.options;
    say::asking(wire.rt, wire.device, wire.address);
    let Some(now) = meter::met(&wire, scope.header, options.anyway) else {
        return false;
    };
    say::order(wire.rt, options.order);
    let plan = Plan {
        header: scope.header,
        now,
        wanted: options.wanted,
        order: options.order,
    };
    polled(&Job { wire, path, plan }, image, figures, scope.span)
}

// What could not be saved is not reported.
fn polled(job: &Job, image: &mut [u8], figures: &mut [u32], span: Span) -> bool {
    let course = poll_days::poll(job, image, figures, span);
    let wire = &job.wire;
    say::new_line(wire.rt, wire.terminal);
    say::sum(wire.rt, course.tally, course.passed);
    if course.end == End::NotSaved {
        return false;
    }
    report::show(wire.rt, wire.terminal, job.path, image, figures, span);
    course.end == End::GoesOn
}
