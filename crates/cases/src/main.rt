// The cases program: reads a case file from standard input, and writes each of its lines with what comes of it.
// A line that is empty or starts with # is no case and is only written. Any bytes may come; a case that cannot be read is answered
// `unread`, and a last line that is not ended is taken as if it were. Assumes nothing.
#![tactic(auto)]

mod book_cases;
mod case_text;
mod kinds;
mod program_cases;
mod reading_cases;
mod results;
mod words;
mod writing_cases;

// Room for a case file; what is past it is not read.
const FILE_ROOM: usize = 131_072;

fn main() {
    let mut file = [0u8; FILE_ROOM];
    let length = io::read_full(0, &mut file);
    answer_lines(&file[..length]);
}

fn answer_lines(file: &[u8]) {
    for line in file.split_inclusive(|byte| *byte == b'\n') {
        answer_line(line.strip_suffix(b"\n").unwrap_or(line));
    }
}

fn answer_line(line: &[u8]) {
    io::write_all(1, line);
    match line {
        [] | [b'#', ..] => (),
        _ => kinds::answer(line),
    }
    io::write_all(1, b"\n");
}
