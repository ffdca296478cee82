// Cases of rows: a row is read into the buffers, and then a schedule is called, each call a word, call + 16 * chunk:
//     1 start    2 step    3 run, and its budget    4 join    5 the schedule of the program `rows`, over so many chunks
//     6 report, and the words of its run            7 the one-call parse, likewise
//     8 the area is kept    9 it is as it was kept
//     10, 11, 12 a word of the area, a byte of the matrix, a word of the grammar is changed: its place and the new value
//     13 the area's words are shown                 14 the first words of the report's run are shown
// 0 ends the schedule. A call answers its number, value and moves, and the sum of what it was lent to write.
ghost use Rattle.std.specs.Prelude.{◌≡◌, ◌≤◌, length};

use crate::input::Input;
use crate::shown::{Output, Told, folded, sum_of};
use crate::{MOST, Streams};
use std::io::{Read, Write};

// What a change changes: a word of the area, a byte of the matrix or a word of the grammar.
#[derive(Clone, Copy)]
enum Changed {
    Area,
    Matrix,
    Words,
}

// A call of a schedule, with the chunk or the number of chunks that it is about.
#[derive(Clone, Copy)]
enum Call {
    Start,
    Step(usize),
    Run(usize),
    Join(usize),
    ReadRow(usize),
    Report,
    Parse,
    Keep,
    PutBack,
    Change(Changed),
    ShowArea,
    ShowRun,
}

impl Call {
    // The call of a word, or none where it ends the schedule; 15 stands for 14 too.
    fn of(word: u16) -> Option<Call> {
        let chunk = usize::from(word / 16);
        match word % 16 {
            0 => None,
            1 => Some(Call::Start),
            2 => Some(Call::Step(chunk)),
            3 => Some(Call::Run(chunk)),
            4 => Some(Call::Join(chunk)),
            5 => Some(Call::ReadRow(chunk)),
            6 => Some(Call::Report),
            7 => Some(Call::Parse),
            8 => Some(Call::Keep),
            9 => Some(Call::PutBack),
            10 => Some(Call::Change(Changed::Area)),
            11 => Some(Call::Change(Changed::Matrix)),
            12 => Some(Call::Change(Changed::Words)),
            13 => Some(Call::ShowArea),
            _ => Some(Call::ShowRun),
        }
    }
}

// A run's budget; 65,535 stands for the greatest.
fn next_budget<R: Read>(input: &mut Input<R>) -> u32 {
    match input.next_word() {
        None | Some(65535) => u32::MAX,
        Some(budget) => u32::from(budget),
    }
}

// The first words of a run, so many of them: a function of its own, since the proof that a row's `area` and `kept` are of one length reads
// their lengths off its clause; where both stood as `&mut run[..size]`, the search stopped at its limit.
fn first_words(run: &mut [u16], size: usize) -> &mut [u16]
    requires { size ≤ length run.old }
    ensures { length result.now ≡ size }
{
    &mut run[..size]
}

// The beginning of a report's run, as long as the next word says, in nines; none where the run has no such beginning.
fn clear_run<'a, R: Read>(input: &mut Input<R>, out: &'a mut [u16]) -> Option<&'a mut [u16]> {
    let room = input.next_number();
    let run = out.get_mut(..room)?;
    run.fill(9);
    Some(run)
}

// Puts a value at a place of a run, if it has that place.
fn put<T: Copy>(run: &mut [T], at: usize, value: T) {
    if let Some(place) = run.get_mut(at) {
        *place = value;
    }
}

// A row under a grammar: what its calls are lent, the area as it was kept, which is as long, whether each answer is shown, and the sum of all
// so far.
#[derive(Drop)]
struct Row<'a> {
    words: &'a mut [u16],
    matrix: &'a mut [u8],
    tokens: &'a [u16],
    cuts: &'a [u16],
    area: &'a mut [u16],
    kept: &'a mut [u16],
    out: &'a mut [u16],
    aloud: bool,
    sum: u64,
    ghost kept_whole: { length area.now ≡ length kept.now },
}

impl Row<'_> {
    // An answer and a sum of what was lent, as one more of the sums before; on a line of their own where that is asked.
    fn tell<W: Write>(&mut self, output: &mut Output<W>, told: Told, sum: u64) {
        if self.aloud {
            output.show(told);
            output.show(sum);
            output.end_line();
        }
        let number = u64::from(told.number);
        let more = u64::from(told.more);
        self.sum = [number, told.value, more, sum]
            .iter()
            .fold(self.sum, |sum, one| folded(sum, *one));
    }

    // The answer of a call that was lent the area to write.
    fn tell_area<W: Write>(&mut self, output: &mut Output<W>, answer: impl Into<Told>) {
        let sum = sum_of(self.area);
        self.tell(output, answer.into(), sum);
    }

    // The schedule of the program `rows`: each chunk is run until it rests, then chunk 0 is joined rightwards, and run until it rests
    // after each join. It stands in rows/src/schedule.rt too: a program is no crate that another can use.
    fn read_row(&mut self, chunks: usize) {
        for chunk in 0..chunks {
            let _ = reader::run(self.words, self.matrix, self.area, chunk, u32::MAX);
        }
        for _ in 1..chunks {
            let _ = reader::join(self.words, self.matrix, self.area, 0);
            let _ = reader::run(self.words, self.matrix, self.area, 0, u32::MAX);
        }
    }

    // The report into a run of nines.
    fn report<R: Read, W: Write>(&mut self, streams: &mut Streams<R, W>) {
        let Some(run) = clear_run(&mut streams.input, self.out) else {
            return;
        };
        let told = Told::from(report::report(self.words, self.matrix, self.area, run));
        let sum = sum_of(run);
        self.tell(&mut streams.output, told, sum);
    }

    // The one-call parse into a run of nines. It and `report` stay two: a closure for the call and the sum would be lent all of the row but the run,
    // which is a part of it.
    fn parse<R: Read, W: Write>(&mut self, streams: &mut Streams<R, W>) {
        let Some(run) = clear_run(&mut streams.input, self.out) else {
            return;
        };
        let told = Told::from(parse::parse(self.words, self.tokens, self.area, run));
        let sum = folded(sum_of(self.area), sum_of(run));
        self.tell(&mut streams.output, told, sum);
    }

    // One word or byte changed.
    fn change<R: Read>(&mut self, input: &mut Input<R>, changed: Changed) {
        let at = input.next_number();
        let value = input.next_value();
        match changed {
            Changed::Area => put(self.area, at, value),
            Changed::Matrix => put(self.matrix, at, (value % 256) as u8),
            Changed::Words => put(self.words, at, value),
        }
    }

    // The first words of the report's run.
    fn show_run<R: Read, W: Write>(&self, streams: &mut Streams<R, W>) {
        let count = streams.input.next_number();
        if let Some(run) = self.out.get(..count) {
            streams.output.show_words(run);
        }
    }

    fn call<R: Read, W: Write>(&mut self, streams: &mut Streams<R, W>, call: Call) {
        let Streams { input, output } = streams;
        match call {
            Call::Start => {
                let answer = start::start(
                    self.words,
                    self.matrix,
                    self.tokens,
                    self.cuts,
                    self.area,
                );
                self.tell_area(output, answer);
            }
            Call::Step(chunk) => {
                let answer = reader::step(self.words, self.matrix, self.area, chunk);
                self.tell_area(output, answer);
            }
            Call::Run(chunk) => {
                let budget = next_budget(input);
                let answer = reader::run(self.words, self.matrix, self.area, chunk, budget);
                self.tell_area(output, answer);
            }
            Call::Join(chunk) => {
                let answer = reader::join(self.words, self.matrix, self.area, chunk);
                self.tell_area(output, answer);
            }
            Call::ReadRow(chunks) => {
                self.read_row(chunks);
                self.tell_area(output, Told::default());
            }
            Call::Report => self.report(streams),
            Call::Parse => self.parse(streams),
            Call::Keep => self.kept.copy_from_slice(self.area),
            Call::PutBack => self.area.copy_from_slice(self.kept),
            Call::Change(changed) => self.change(input, changed),
            Call::ShowArea => output.show_words(self.area),
            Call::ShowRun => self.show_run(streams),
        }
    }

    // A schedule to its end.
    fn schedule<R: Read, W: Write>(&mut self, streams: &mut Streams<R, W>) {
        for _ in 0..MOST {
            let Some(call) = streams.input.next_word().and_then(Call::of) else {
                return;
            };
            self.call(streams, call);
        }
    }
}

impl<R: Read, W: Write> Streams<R, W> {
    // Kinds 4 and 5: tokens, cuts, how many words the area has, and a schedule, whose answers kind 4 shows one by one. The area's words
    // are nines at first.
    pub(crate) fn row_case(&mut self, words: &mut [u16], matrix: &mut [u8], aloud: bool) {
        let mut tokens = [0u16; 16400];
        let mut cuts = [0u16; 80];
        let mut area = [9u16; 115100];
        let mut kept = [0u16; 115100];
        let mut out = [0u16; 49200];
        let tokens = self.input.read_run(&mut tokens);
        let cuts = self.input.read_run(&mut cuts);
        let room = self.input.next_wide() as usize;
        if area.len() < room {
            return;
        }
        let mut row = Row {
            words,
            matrix,
            tokens,
            cuts,
            area: first_words(&mut area, room),
            kept: first_words(&mut kept, room),
            out: &mut out,
            aloud,
            sum: 0,
        };
        row.schedule(self);
        self.output.show(row.sum);
        self.output.end_line();
    }

    // The tokens of so many entries of a report's run: how many, and which.
    fn show_entries(&mut self, report: &[u16], tokens: &[u16]) {
        for _ in 0..self.input.next_number() {
            let entry = self.input.next_wide() as usize;
            let part = report::entry_tokens(report, entry, tokens);
            self.output.show(part.len());
            self.output.show_words(part);
        }
    }

    // Kind 7: tokens, a report's run, and the entries whose tokens are asked.
    pub(crate) fn entries_case(&mut self) {
        let mut tokens = [0u16; 16400];
        let mut report = [0u16; 49200];
        let tokens = self.input.read_run(&mut tokens);
        let report = self.input.read_run(&mut report);
        self.show_entries(report, tokens);
    }
}
