// Damaged copies of a log's file, read one after the other. Each line has what was done to the good file, document 01's number, the
// image's length where there is one, and the output's first byte, which was 255 before. The file is document 01's example, of version 1: a log
// from 2024-05-17, 1 day, 30 minutes, Ke 100, slot 0 measured 12 0 3 0, slot 1 empty, all others gaps. Then files of versions 1, 2 and 3 over the days
// on which the clock is moved, and the figures that come with a log. stdout was written by hand from the tables of documents 01 and 02, and not by this code.
#![tactic(auto)]

ghost use Rattle.std.specs.Prelude.{◌≤◌};

use log_file::WriteError;
use refusal::Numbered;

// A row before version 3, and since.
const EARLY_ROW: usize = 9;

const ROW: usize = 10;

// Where rows of the first two versions begin: the first two, those of the hour from 02:00 with its neighbours, and the last one. Of half hours first.
const SLOT_0: usize = log_header::HEADER_BYTES;

const SLOT_1: usize = SLOT_0 + EARLY_ROW;

const SLOT_3: usize = SLOT_0 + 3 * EARLY_ROW;

const SLOT_4: usize = SLOT_0 + 4 * EARLY_ROW;

const SLOT_5: usize = SLOT_0 + 5 * EARLY_ROW;

const SLOT_6: usize = SLOT_0 + 6 * EARLY_ROW;

const SLOT_47: usize = SLOT_0 + 47 * EARLY_ROW;

// Of quarters.
const SLOT_7: usize = SLOT_0 + 7 * EARLY_ROW;

const SLOT_8: usize = SLOT_0 + 8 * EARLY_ROW;

const SLOT_11: usize = SLOT_0 + 11 * EARLY_ROW;

const SLOT_12: usize = SLOT_0 + 12 * EARLY_ROW;

// The file's CRC, the file and one byte more, which is 0; and its image.
const CRC: usize = SLOT_47 + EARLY_ROW;

const FILE: usize = CRC + frame::layout::CRC_BYTES;

const LONGER: usize = FILE + 1;

// Kinds at two bits each, counts of eight bytes and a byte of lapses for each of 48 cells.
const IMAGE: usize = log_header::HEADER_BYTES + 48 / 4 + 9 * 48;

// The same of version 3.
const LATE_3: usize = SLOT_0 + 3 * ROW;

const LATE_4: usize = SLOT_0 + 4 * ROW;

const LATE_5: usize = SLOT_0 + 5 * ROW;

const LATE_6: usize = SLOT_0 + 6 * ROW;

const LATE_7: usize = SLOT_0 + 7 * ROW;

const LATE_8: usize = SLOT_0 + 8 * ROW;

const LATE_11: usize = SLOT_0 + 11 * ROW;

const LATE_12: usize = SLOT_0 + 12 * ROW;

const LATE_47: usize = SLOT_0 + 47 * ROW;

const LATE_CRC: usize = SLOT_0 + 48 * ROW;

const LATE_FILE: usize = LATE_CRC + frame::layout::CRC_BYTES;

const LATE_QUARTERS_CRC: usize = SLOT_0 + 96 * ROW;

const LATE_QUARTERS_FILE: usize = LATE_QUARTERS_CRC + frame::layout::CRC_BYTES;

// The lapses in a row.
const LAPSES: usize = 9;

// Those of a day of quarters.
const QUARTERS_CRC: usize = SLOT_0 + 96 * EARLY_ROW;

const QUARTERS_FILE: usize = QUARTERS_CRC + frame::layout::CRC_BYTES;

const QUARTERS_IMAGE: usize = log_header::HEADER_BYTES + 96 / 4 + 9 * 96;

fn main(rt: HostRuntime) {
    lengths(rt);
    marks(rt);
    dates(rt);
    fields(rt);
    crcs(rt);
    cells(rt);
    outputs(rt);
    figures(rt);
    first_of_two(rt);
    first_version(rt);
    second_version(rt);
    third_version(rt);
    missing_hour(rt);
    lapses(rt);
    written_out(rt);
}

// The whole file, too little to say, nothing behind the header, and a byte too few or too many.
fn lengths(rt: HostRuntime) {
    show(rt, b"good", good(), FILE);
    show_crc(rt, good());
    show(rt, b"no byte", good(), 0);
    show(rt, b"4 bytes", good(), 4);
    show(rt, b"5 bytes", good(), 5);
    show(rt, b"13 bytes", good(), 13);
    show(rt, b"14 bytes", good(), log_header::HEADER_BYTES);
    show(rt, b"all but the CRC", good(), CRC);
    show(rt, b"a byte short", good(), FILE - 1);
    show(rt, b"a byte long", good(), LONGER);
}

// The mark and the version.
fn marks(rt: HostRuntime) {
    damaged(rt, b"mark geL", 0, b"ge");
    damaged(rt, b"mark GEl", 2, b"l");
    damaged(rt, b"version 0", 3, b"\x00");
    damaged(rt, b"version 2", 3, b"\x02");
    sealed_again(rt, b"version 2", 3, b"\x02");
    damaged(rt, b"version 3", 3, b"\x03");
    sealed_again(rt, b"version 3", 3, b"\x03");
    sealed_again(rt, b"version 4", 3, b"\x04");
    sealed_again(rt, b"version 257", 4, b"\x01");
    sealed_again(rt, b"version 258", 3, b"\x02\x01");
}

// The start, and the end by 2099-12-31.
fn dates(rt: HostRuntime) {
    damaged(rt, b"year 2100", 5, b"\x64");
    damaged(rt, b"month 0", 6, b"\x00");
    damaged(rt, b"month 13", 6, b"\x0D");
    damaged(rt, b"day 0", 7, b"\x00");
    damaged(rt, b"30 February 2024", 6, b"\x02\x1E");
    damaged(rt, b"29 February 2023", 5, b"\x17\x02\x1D");
    sealed_again(rt, b"29 February 2024", 6, b"\x02\x1D");
    sealed_again(rt, b"31 December 2099", 5, b"\x63\x0C\x1F");
    damaged(rt, b"31 December 2099, 2 days", 5, b"\x63\x0C\x1F\x02");
}

// The header's other fields. A right one that tells of another length is 33.
fn fields(rt: HostRuntime) {
    damaged(rt, b"0 days", 8, b"\x00");
    damaged(rt, b"63 days", 8, b"\x3F");
    damaged(rt, b"62 days", 8, b"\x3E");
    damaged(rt, b"2 days", 8, b"\x02");
    damaged(rt, b"20 minutes", 9, b"\x14");
    damaged(rt, b"15 minutes", 9, b"\x0F");
    damaged(rt, b"Ke 0", 10, b"\x00");
    sealed_again(rt, b"Ke 65535", 10, b"\xFF\xFF");
    sealed_again(rt, b"first zero byte 1", 12, b"\x01");
    damaged(rt, b"second zero byte 128", 13, b"\x80");
}

fn crcs(rt: HostRuntime) {
    damaged(rt, b"CRC 0", CRC, b"\x00\x00");
    damaged(rt, b"year 2025", 5, b"\x19");
    sealed_again(rt, b"year 2025", 5, b"\x19");
    damaged(rt, b"slot 0 counts 13", SLOT_0 + 1, b"\x0D");
    sealed_again(rt, b"slot 0 counts 13", SLOT_0 + 1, b"\x0D");
    damaged(rt, b"slot 47 kind 3", SLOT_47, b"\x03");
}

fn cells(rt: HostRuntime) {
    sealed_again(
        rt,
        b"slot 0 measured zeros",
        SLOT_0,
        b"\x02\x00\x00\x00\x00\x00\x00\x00\x00",
    );
    sealed_again(rt, b"slot 0 kind 3", SLOT_0, b"\x03");
    sealed_again(rt, b"slot 0 a gap with counts", SLOT_0, b"\x00");
    sealed_again(rt, b"slot 1 empty with a count", SLOT_1 + 8, b"\x01");
    sealed_again(rt, b"slot 1 measured zeros", SLOT_1, b"\x02");
    sealed_again(rt, b"slot 47 kind 3", SLOT_47, b"\x03");
    sealed_again(rt, b"slot 47 measured 65535", SLOT_47, b"\x02\xFF\xFF");
    sealed_again(rt, b"all slots but 0 gaps", SLOT_1, b"\x00");
}

fn outputs(rt: HostRuntime) {
    into_less(rt, b"good", good());
    into_one(rt, b"good", good());
}

// The eight figures of the day, into numbers that were 9 before: with room for more, for them alone, and for one too few. Those of a slot that
// does not exist are not counted, one that comes twice is counted once more.
fn figures(rt: HostRuntime) {
    let mut file = example();
    into_figures(rt, b"good", &file, 9);
    into_figures(rt, b"good", &file, 8);
    into_figures(rt, b"good", &file, 7);
    byte_numbers::put_bytes(&mut file, CRC, b"\x00\x00");
    into_figures(rt, b"CRC 0", &file, 7);
    into_figures(rt, b"27 October 2024", &in_october(), 9);
    into_figures(rt, b"version 3, spring", &late_spring(SLOT_0, b"\x00"), 9);
}

// Of two faults the one that comes first in the table answers.
fn first_of_two(rt: HostRuntime) {
    damaged(rt, b"mark and version", 0, b"GEM\x04");
    damaged(rt, b"version and month 13", 3, b"\x04\x00\x18\x0D");
    show(
        rt,
        b"month 13, a byte short",
        with(good(), 6, b"\x0D"),
        FILE - 1,
    );
    show(
        rt,
        b"CRC 0, a byte short",
        with(good(), CRC, b"\x00\x00"),
        FILE - 1,
    );
    damaged(rt, b"slot 0 kind 3", SLOT_0, b"\x03");
    into_less(rt, b"slot 0 kind 3", sealed(with(good(), SLOT_0, b"\x03")));
    into_less(rt, b"CRC 0", with(good(), CRC, b"\x00\x00"));
}

// Version 1 over the last Sundays of March and of October, with cells in the hour from 02:00: it follows no seasons, and is written as version 3.
fn first_version(rt: HostRuntime) {
    half_hours(
        rt,
        b"version 1, 31 March 2024",
        b"GEL\x01\x00\x18\x03\x1F\x01\x1E\x64\x00\x00\x00",
        SLOT_4,
        SLOT_5,
        b"\x3F\xFC",
    );
    half_hours(
        rt,
        b"version 1, 27 October 2024",
        b"GEL\x01\x00\x18\x0A\x1B\x01\x1E\x64\x00\x00\x00",
        SLOT_4,
        SLOT_5,
        b"\xD3\x42",
    );
    quarters(
        rt,
        b"version 1, 31 March 2024",
        b"GEL\x01\x00\x18\x03\x1F\x01\x0F\x64\x00\x00\x00",
        SLOT_8,
        SLOT_11,
        b"\x3D\x6D",
    );
    quarters(
        rt,
        b"version 1, 27 October 2024",
        b"GEL\x01\x00\x18\x0A\x1B\x01\x0F\x64\x00\x00\x00",
        SLOT_8,
        SLOT_11,
        b"\xA4\x56",
    );
}

// Version 2 that follows the seasons: in March with cells beside the hour alone, in October in it.
fn second_version(rt: HostRuntime) {
    half_hours(
        rt,
        b"version 2, 31 March 2024",
        b"GEL\x02\x00\x18\x03\x1F\x01\x1E\x64\x00\x01\x00",
        SLOT_3,
        SLOT_6,
        b"\x79\x03",
    );
    half_hours(
        rt,
        b"version 2, 27 October 2024",
        b"GEL\x02\x00\x18\x0A\x1B\x01\x1E\x64\x00\x01\x00",
        SLOT_4,
        SLOT_5,
        b"\xDA\x0D",
    );
    quarters(
        rt,
        b"version 2, 31 March 2024",
        b"GEL\x02\x00\x18\x03\x1F\x01\x0F\x64\x00\x01\x00",
        SLOT_7,
        SLOT_12,
        b"\xFB\x2D",
    );
    quarters(
        rt,
        b"version 2, 27 October 2024",
        b"GEL\x02\x00\x18\x0A\x1B\x01\x0F\x64\x00\x01\x00",
        SLOT_8,
        SLOT_11,
        b"\x68\x64",
    );
}

// Version 3 over the same days: slot 0 a gap with a lapse, the measured cell with 255, the empty one with 7.
fn third_version(rt: HostRuntime) {
    late_half_hours(
        rt,
        b"version 3, 31 March 2024",
        b"GEL\x03\x00\x18\x03\x1F\x01\x1E\x64\x00\x01\x00",
        LATE_3,
        LATE_6,
        b"\xD3\x92",
    );
    late_half_hours(
        rt,
        b"version 3, 27 October 2024",
        b"GEL\x03\x00\x18\x0A\x1B\x01\x1E\x64\x00\x01\x00",
        LATE_4,
        LATE_5,
        b"\xC2\xE2",
    );
    late_half_hours(
        rt,
        b"version 3, 31 March 2024, seasons 0",
        b"GEL\x03\x00\x18\x03\x1F\x01\x1E\x64\x00\x00\x00",
        LATE_4,
        LATE_5,
        b"\xAD\x36",
    );
    late_quarters(
        rt,
        b"version 3, 31 March 2024",
        b"GEL\x03\x00\x18\x03\x1F\x01\x0F\x64\x00\x01\x00",
        LATE_7,
        LATE_12,
        b"\xF3\x74",
    );
    late_quarters(
        rt,
        b"version 3, 27 October 2024",
        b"GEL\x03\x00\x18\x0A\x1B\x01\x0F\x64\x00\x01\x00",
        LATE_8,
        LATE_11,
        b"\x07\xCA",
    );
}

// The hour that 31 March 2024 does not have where the seasons are followed.
fn missing_hour(rt: HostRuntime) {
    in_spring(rt, b"all gaps", SLOT_0, b"\x00");
    in_spring(rt, b"slot 3 empty", SLOT_3, b"\x01");
    in_spring(rt, b"slot 4 empty", SLOT_4, b"\x01");
    in_spring(rt, b"slot 4 measured 1", SLOT_4, b"\x02\x01");
    in_spring(rt, b"slot 5 empty", SLOT_5, b"\x01");
    in_spring(rt, b"slot 5 kind 3", SLOT_5, b"\x03");
    in_spring(rt, b"slot 6 empty", SLOT_6, b"\x01");
    in_spring(rt, b"seasons 2", 12, b"\x02");
    in_spring(rt, b"seasons 255", 12, b"\xFF");
    in_spring(rt, b"last zero byte 1", 13, b"\x01");
    in_spring(rt, b"version 1", 3, b"\x01");
    with_slot_4(rt, b"seasons 0", 12, b"\x00");
    with_slot_4(rt, b"30 March", 7, b"\x1E");
    with_slot_4(rt, b"24 March", 7, b"\x18");
    with_slot_4(rt, b"30 March 2025", 5, b"\x19\x03\x1E");
    with_slot_4(rt, b"27 October", 6, b"\x0A\x1B");
    with_slot_4(rt, b"seasons 2", 12, b"\x02");
    into_less(
        rt,
        b"spring, slot 4 empty",
        sealed(with(spring(), SLOT_4, b"\x01")),
    );
    show(
        rt,
        b"spring, slot 4 empty",
        with(spring(), SLOT_4, b"\x01"),
        FILE,
    );
}

// Of version 3: any byte is the lapses of a slot that exists, and 0 alone those of one that does not. A version's length is its own.
fn lapses(rt: HostRuntime) {
    in_late_spring(rt, b"all gaps", SLOT_0, b"\x00");
    in_late_spring(rt, b"slot 0 one lapse", SLOT_0 + LAPSES, b"\x01");
    in_late_spring(rt, b"slot 3 255 lapses", LATE_3 + LAPSES, b"\xFF");
    in_late_spring(rt, b"slot 4 one lapse", LATE_4 + LAPSES, b"\x01");
    in_late_spring(rt, b"slot 4 255 lapses", LATE_4 + LAPSES, b"\xFF");
    in_late_spring(rt, b"slot 5 one lapse", LATE_5 + LAPSES, b"\x01");
    in_late_spring(rt, b"slot 6 one lapse", LATE_6 + LAPSES, b"\x01");
    in_late_spring(rt, b"slot 47 255 lapses", LATE_47 + LAPSES, b"\xFF");
    in_late_spring(rt, b"slot 4 empty", LATE_4, b"\x01");
    in_late_spring(rt, b"slot 47 kind 3", LATE_47, b"\x03");
    in_late_spring(rt, b"version 2", 3, b"\x02");
    in_late_spring(
        rt,
        b"version 1, seasons 0",
        3,
        b"\x01\x00\x18\x03\x1F\x01\x1E\x64\x00\x00",
    );
    in_late_spring(rt, b"seasons 2", 12, b"\x02");
}

// What a log is written as that no file gives: cells and lapses in the hour that is none, and images of other versions.
fn written_out(rt: HostRuntime) {
    let mut image = [0u8; IMAGE];
    let mut figures = [0u32; day_rows::FIGURES_MOST];
    let _ = log_file::read_file(&in_october(), &mut image, &mut figures);
    write(rt, b"27 October", &image);
    byte_numbers::put_bytes(&mut image, 6, b"\x03\x1F");
    write(rt, b"31 March", &image);
    byte_numbers::put_bytes(&mut image, 12, b"\x00");
    write(rt, b"31 March, seasons 0", &image);
    byte_numbers::put_bytes(&mut image, 3, b"\x01");
    write(rt, b"31 March, seasons 0, version 1", &image);
    byte_numbers::put_bytes(&mut image, 3, b"\x02");
    write(rt, b"31 March, seasons 0, version 2", &image);
    write_lapses(rt);
}

fn write_lapses(rt: HostRuntime) {
    let mut image = [0u8; IMAGE];
    let mut figures = [0u32; day_rows::FIGURES_MOST];
    let _ = log_file::read_file(&late_spring(SLOT_0, b"\x00"), &mut image, &mut figures);
    write(rt, b"spring, all gaps", &image);
    energy_log::put_lapses(&mut image, 4, 1);
    write(rt, b"spring, slot 4 one lapse", &image);
    energy_log::put_lapses(&mut image, 4, 0);
    energy_log::put_lapses(&mut image, 6, 255);
    write(rt, b"spring, slot 6 255 lapses", &image);
}

fn good() -> [u8; LONGER] {
    let mut file = [0u8; LONGER];
    byte_numbers::put_bytes(
        &mut file,
        0,
        b"GEL\x01\x00\x18\x05\x11\x01\x1E\x64\x00\x00\x00",
    );
    byte_numbers::put_bytes(
        &mut file,
        SLOT_0,
        b"\x02\x0C\x00\x00\x00\x03\x00\x00\x00\x01",
    );
    sealed(file)
}

// The same without the byte behind it.
fn example() -> [u8; FILE] {
    let mut file = [0u8; FILE];
    byte_numbers::put_bytes(
        &mut file,
        0,
        b"GEL\x01\x00\x18\x05\x11\x01\x1E\x64\x00\x00\x00",
    );
    byte_numbers::put_bytes(
        &mut file,
        SLOT_0,
        b"\x02\x0C\x00\x00\x00\x03\x00\x00\x00\x01",
    );
    frame::seal(&mut file, CRC);
    file
}

// All gaps over a March day, the seasons followed.
fn spring() -> [u8; LONGER] {
    let mut file = [0u8; LONGER];
    byte_numbers::put_bytes(
        &mut file,
        0,
        b"GEL\x02\x00\x18\x03\x1F\x01\x1E\x64\x00\x01\x00",
    );
    sealed(file)
}

// The second version's October day.
fn in_october() -> [u8; FILE] {
    let mut file = [0u8; FILE];
    put_day(
        &mut file,
        b"GEL\x02\x00\x18\x0A\x1B\x01\x1E\x64\x00\x01\x00",
        SLOT_4,
        SLOT_5,
    );
    byte_numbers::put_bytes(&mut file, CRC, b"\xDA\x0D");
    file
}

// All gaps over a March day of version 3, the seasons followed, with other bytes at a place.
fn late_spring(at: usize, bytes: &[u8]) -> [u8; LATE_FILE] {
    let mut file = [0u8; LATE_FILE];
    byte_numbers::put_bytes(
        &mut file,
        0,
        b"GEL\x03\x00\x18\x03\x1F\x01\x1E\x64\x00\x01\x00",
    );
    byte_numbers::put_bytes(&mut file, at, bytes);
    frame::seal(&mut file, LATE_CRC);
    file
}

// The file with the CRC of what it now holds.
fn sealed(mut file: [u8; LONGER]) -> [u8; LONGER] {
    frame::seal(&mut file, CRC);
    file
}

// The file with other bytes at a place.
fn with(mut file: [u8; LONGER], at: usize, bytes: &[u8]) -> [u8; LONGER] {
    byte_numbers::put_bytes(&mut file, at, bytes);
    file
}

// Bytes changed under the old CRC.
fn damaged(rt: HostRuntime, what: &[u8], at: usize, bytes: &[u8]) {
    show(rt, what, with(good(), at, bytes), FILE);
}

// Bytes changed, and the CRC made right again.
fn sealed_again(rt: HostRuntime, what: &[u8], at: usize, bytes: &[u8]) {
    say(rt, what);
    show(rt, b", sealed again", sealed(with(good(), at, bytes)), FILE);
}

// The same of the March day.
fn in_spring(rt: HostRuntime, what: &[u8], at: usize, bytes: &[u8]) {
    say(rt, b"spring, ");
    say(rt, what);
    show(
        rt,
        b", sealed again",
        sealed(with(spring(), at, bytes)),
        FILE,
    );
}

// And with a cell in the hour from 02:00.
fn with_slot_4(rt: HostRuntime, what: &[u8], at: usize, bytes: &[u8]) {
    say(rt, b"slot 4 empty, ");
    say(rt, what);
    show(
        rt,
        b", sealed again",
        sealed(with(with(spring(), SLOT_4, b"\x01"), at, bytes)),
        FILE,
    );
}

// Of version 3.
fn in_late_spring(rt: HostRuntime, what: &[u8], at: usize, bytes: &[u8]) {
    let mut out = [255u8; IMAGE];
    say(rt, b"version 3, spring, ");
    say(rt, what);
    say(rt, b", sealed again");
    read(rt, &late_spring(at, bytes), &mut out);
}

// A stored file, with a CRC that another program reckoned: read, and what was read written again.
fn half_hours(
    rt: HostRuntime,
    what: &[u8],
    head: &[u8],
    measured: usize,
    empty: usize,
    crc: &[u8],
) {
    let mut file = [0u8; FILE];
    put_day(&mut file, head, measured, empty);
    byte_numbers::put_bytes(&mut file, CRC, crc);
    let mut image = [255u8; IMAGE];
    let mut again = [255u8; LATE_FILE];
    say(rt, what);
    say(rt, b", 30 minutes");
    read_and_write(rt, &file, &mut image, &mut again);
}

fn quarters(rt: HostRuntime, what: &[u8], head: &[u8], measured: usize, empty: usize, crc: &[u8]) {
    let mut file = [0u8; QUARTERS_FILE];
    put_day(&mut file, head, measured, empty);
    byte_numbers::put_bytes(&mut file, QUARTERS_CRC, crc);
    let mut image = [255u8; QUARTERS_IMAGE];
    let mut again = [255u8; LATE_QUARTERS_FILE];
    say(rt, what);
    say(rt, b", 15 minutes");
    read_and_write(rt, &file, &mut image, &mut again);
}

// The same of version 3.
fn late_half_hours(
    rt: HostRuntime,
    what: &[u8],
    head: &[u8],
    measured: usize,
    empty: usize,
    crc: &[u8],
) {
    let mut file = [0u8; LATE_FILE];
    put_late_day(&mut file, head, measured, empty);
    byte_numbers::put_bytes(&mut file, LATE_CRC, crc);
    let mut image = [255u8; IMAGE];
    let mut again = [255u8; LATE_FILE];
    say(rt, what);
    say(rt, b", 30 minutes");
    read_and_write(rt, &file, &mut image, &mut again);
    show_lapses(rt, &image);
}

fn late_quarters(
    rt: HostRuntime,
    what: &[u8],
    head: &[u8],
    measured: usize,
    empty: usize,
    crc: &[u8],
) {
    let mut file = [0u8; LATE_QUARTERS_FILE];
    put_late_day(&mut file, head, measured, empty);
    byte_numbers::put_bytes(&mut file, LATE_QUARTERS_CRC, crc);
    let mut image = [255u8; QUARTERS_IMAGE];
    let mut again = [255u8; LATE_QUARTERS_FILE];
    say(rt, what);
    say(rt, b", 15 minutes");
    read_and_write(rt, &file, &mut image, &mut again);
    show_lapses(rt, &image);
}

// With lapses, and a gap with one at midnight.
fn put_late_day(file: &mut [u8], head: &[u8], measured: usize, empty: usize) {
    byte_numbers::put_bytes(file, 0, head);
    byte_numbers::put_bytes(file, SLOT_0, b"\x00\x00\x00\x00\x00\x00\x00\x00\x00\x01");
    byte_numbers::put_bytes(file, measured, b"\x02\x0C\x00\x00\x00\x03\x00\x00\x00\xFF");
    byte_numbers::put_bytes(file, empty, b"\x01\x00\x00\x00\x00\x00\x00\x00\x00\x07");
}

// The lapses at midnight, and in and beside the hour from 02:00, be it of half hours or of quarters.
fn show_lapses(rt: HostRuntime, image: &[u8]) {
    say(rt, b"its lapses in slots 0, 3 to 8, 11 and 12:");
    for i in [0, 3, 4, 5, 6, 7, 8, 11, 12] {
        number(rt, u64::from(energy_log::lapses_at(image, i)));
    }
    say(rt, b"\n");
}

// A header, and the rows of two cells, where all others are gaps.
fn put_day(file: &mut [u8], head: &[u8], measured: usize, empty: usize) {
    byte_numbers::put_bytes(file, 0, head);
    byte_numbers::put_bytes(file, measured, b"\x02\x0C\x00\x00\x00\x03\x00\x00\x00");
    byte_numbers::put_bytes(file, empty, b"\x01");
}

// The image's version and seasons, and the length and the CRC of the file that it is written as.
fn read_and_write(rt: HostRuntime, file: &[u8], image: &mut [u8], again: &mut [u8]) {
    read(rt, file, image);
    say(rt, b"its image: version");
    number(rt, u64::from(log_header::version_at(image)));
    say(rt, b", seasons");
    number(rt, u64::from(byte_numbers::byte_at(image, 12)));
    say(rt, b", written");
    answer_of(rt, log_file::write_file(image, again), again);
}

fn write(rt: HostRuntime, what: &[u8], image: &[u8]) {
    let mut out = [255u8; LATE_FILE];
    say(rt, what);
    say(rt, b", written:");
    answer_of(rt, log_file::write_file(image, &mut out), &out);
}

// The first byte of a file that was not written, and the CRC of one that was.
fn answer_of(rt: HostRuntime, answer: Result<usize, WriteError>, out: &[u8]) {
    number(rt, u64::from(answer.number()));
    match answer {
        Ok(n) => {
            number(rt, n as u64);
            say(rt, b" ");
            let mut digits = [0u8; 4];
            text::put_hex(&mut digits, 0, &[from_end(out, 2), from_end(out, 1)]);
            say(rt, &digits);
        }
        Err(_) => number(rt, u64::from(byte_numbers::byte_at(out, 0))),
    }
    say(rt, b"\n");
}

fn from_end(bytes: &[u8], n: usize) -> u8 {
    if bytes.len() < n {
        return 0;
    }
    byte_numbers::byte_at(bytes, bytes.len() - n)
}

// The first n bytes, into an output that has room.
fn show(rt: HostRuntime, what: &[u8], file: [u8; LONGER], n: usize) {
    let mut out = [255u8; IMAGE];
    say(rt, what);
    read_first(rt, file, n, &mut out);
}

// Into an output one byte too short.
fn into_less(rt: HostRuntime, what: &[u8], file: [u8; LONGER]) {
    let mut out = [255u8; IMAGE - 1];
    say(rt, what);
    say(rt, b", output of 493 bytes");
    read_first(rt, file, FILE, &mut out);
}

fn into_one(rt: HostRuntime, what: &[u8], file: [u8; LONGER]) {
    let mut out = [255u8; 1];
    say(rt, what);
    say(rt, b", output of 1 byte");
    read_first(rt, file, FILE, &mut out);
}

fn read_first(rt: HostRuntime, file: [u8; LONGER], n: usize, out: &mut [u8]) {
    if n <= LONGER {
        read(rt, &file[..n], out);
    }
}

// With so many figures lent.
fn into_figures(rt: HostRuntime, what: &[u8], file: &[u8], n: usize)
    requires { n ≤ 9 }
{
    let mut figures = [9u32; 9];
    say(rt, what);
    say(rt, b",");
    number(rt, n as u64);
    say(rt, b" figures lent: ");
    read_beside(rt, file, &mut figures[..n]);
}

// The number, the output's first byte and the figures.
fn read_beside(rt: HostRuntime, file: &[u8], figures: &mut [u32]) {
    let mut out = [255u8; IMAGE];
    let answer = log_file::read_file(file, &mut out, figures);
    let _ = rt.stdout().print(u64::from(answer.number()));
    number(rt, u64::from(byte_numbers::byte_at(&out, 0)));
    say(rt, b",");
    for figure in figures {
        number(rt, u64::from(*figure));
    }
    say(rt, b"\n");
}

fn read(rt: HostRuntime, file: &[u8], out: &mut [u8]) {
    let mut figures = [0u32; day_rows::FIGURES_MOST];
    say(rt, b": ");
    let answer = log_file::read_file(file, out, &mut figures);
    let _ = rt.stdout().print(u64::from(answer.number()));
    if let Ok(n) = answer {
        number(rt, n as u64);
    }
    number(rt, u64::from(byte_numbers::byte_at(out, 0)));
    say(rt, b"\n");
}

fn show_crc(rt: HostRuntime, file: [u8; LONGER]) {
    let mut digits = [0u8; 4];
    text::put_hex(&mut digits, 0, &[file[CRC], file[CRC + 1]]);
    say(rt, b"its CRC: ");
    say(rt, &digits);
    say(rt, b"\n");
}

fn number(rt: HostRuntime, n: u64) {
    say(rt, b" ");
    let _ = rt.stdout().print(n);
}

fn say(rt: HostRuntime, bytes: &[u8]) {
    let _ = rt.stdout().write_all(bytes);
}
