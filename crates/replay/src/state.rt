// The lamp that is kept from line to line, and the answer to a line of it. A call that cannot be read, or has no lamp to
// act on, answers `error` and changes nothing. The newline behind an answer is the caller's.
use call_lines::lines::{Line, Making, OnLamp};
use call_lines::{leaves, lines};
use lamp::{Answer, Call, Lamp};
use lamp_lines::answers;
use tasks::Task;
use text::writer::{Sink, text};

// The lamp, where there is one, and the task that was given last.
#[derive(Clone, Copy)]
pub struct State {
    pub lamp: Option<Lamp>,
    pub task: Option<Task>,
}

pub(crate) fn error(out: &mut impl Sink) {
    text(out, b"error");
}

// The calls, one a line.
fn help(out: &mut impl Sink) {
    text(
        out,
        b"lamp <fields>\n\
          new <min> <max> <features> <options> <clock>\n\
          poke <fields>\n\
          record <record>\n\
          cmd <name> <on|off|none> <args> <mask> <override> <clock>\n\
          start <task> <clock>\n\
          startlast <clock>\n\
          step <clock>\n\
          halt <clock>\n\
          bounds <min> <max> <clock>\n\
          set hue <new> <end> <enhanced> <clock>\n\
          set sat <new> <end> <clock>\n\
          set ct <new> <end> <clock>\n\
          show\n\
          leaf delta <current> <target> <direction>\n\
          leaf remaining <old> <ms> <start 0|1>\n\
          leaf leave <on|off|none> <options> <mask> <override>\n\
          leaf mode_of <emode>\n\
          leaf shown <hue>\n\
          row <count>\n\
          rowcount <count>\n\
          rowshow\n\
          rowstep <length> <fill> <clock>\n\
          at <place> lamp|poke|record|show|cmd|start|startlast|step|halt|bounds ...\n\
          help",
    );
}

impl State {
    pub(crate) fn new() -> State {
        State {
            lamp: None,
            task: None,
        }
    }

    // A task that was given is the last.
    pub(crate) fn give(&mut self, given: Option<Task>) {
        self.task = given.or(self.task);
    }

    // An answer is written, and its lamp kept.
    fn answer(&mut self, answer: Answer, out: &mut impl Sink) {
        self.lamp = Some(answer.lamp);
        self.give(answer.task);
        answers::answer(out, answer);
    }

    // Another lamp: the task that was given last is forgotten.
    fn place(&mut self, lamp: Lamp, out: &mut impl Sink) {
        self.task = None;
        self.answer(lines::shown(lamp), out);
    }

    fn make(&mut self, making: Making, out: &mut impl Sink) {
        match lines::make(making) {
            Ok(lamp) => self.place(lamp, out),
            Err(refusal) => answers::status(out, Err(refusal)),
        }
    }

    fn on_lamp(&mut self, what: OnLamp, out: &mut impl Sink) {
        match self.lamp {
            Some(lamp) => self.answer(lines::on_lamp(lamp, what), out),
            None => error(out),
        }
    }

    // A start of the task that was given last.
    fn start_last(&mut self, clock: u64, out: &mut impl Sink) {
        match self.task {
            Some(task) => self.on_lamp(OnLamp::Call(Call::Start { task, clock }), out),
            None => error(out),
        }
    }

    // A line of the lamp.
    pub(crate) fn run(&mut self, line: Line, out: &mut impl Sink) {
        match line {
            Line::Lamp(lamp) => self.place(lamp, out),
            Line::New(making) => self.make(making, out),
            Line::OnLamp(what) => self.on_lamp(what, out),
            Line::StartLast(clock) => self.start_last(clock, out),
            Line::Ask(leaf) => leaves::ask(leaf, out),
            Line::Help => help(out),
        }
    }
}
