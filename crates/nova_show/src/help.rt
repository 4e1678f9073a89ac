//! The texts of help.

use nova_words::Verb;
use nv_lines::Message;

/// The version of the program, and the toolchain by which its proofs were checked (`rt version`).
pub const VERSION: &str = "nova 1.0\nproved with rattle-kit-13f logic dac8208d650f15bf";

/// Appends the commands, each in a line.
pub fn push_usage(out: &mut Message) {
    for line in USAGE {
        out.line(line);
    }
}

/// Appends the help on one command, or on all.
pub fn push_help(out: &mut Message, verb: Option<Verb>) {
    match verb {
        None => push_usage(out),
        Some(Verb::Build) => push_lines(out, &BUILD),
        Some(Verb::Run) => push_lines(out, &RUN),
        Some(Verb::List) => push_lines(out, &LIST),
        Some(Verb::Check) => push_lines(out, &CHECK),
        Some(Verb::Test) => push_lines(out, &TEST),
        Some(Verb::Trace) => push_lines(out, &TRACE),
        Some(Verb::Page) => push_lines(out, &PAGE),
        Some(Verb::Forms) => push_lines(out, &FORMS),
        Some(Verb::Format) => push_lines(out, &FORMAT),
        Some(Verb::Serve) => push_lines(out, &SERVE),
        Some(Verb::Asm) => push_lines(out, &ASM),
        Some(Verb::Mem) => push_lines(out, &MEM),
        Some(Verb::Replay) => push_lines(out, &REPLAY),
        Some(Verb::Explain) => push_lines(out, &EXPLAIN),
        Some(Verb::Help) => out.line(
            "nova help [COMMAND]: prints the options of a command, or all commands.",
        ),
        Some(Verb::Version) => out.line(
            "nova version: prints the version, as `nova --version` does.",
        ),
    }
}

fn push_lines(out: &mut Message, lines: &[&str]) {
    for line in lines {
        out.line(line);
    }
}

const USAGE: [&str; 28] = [
    "nova compiles, runs, tests and explains programs of Nova, a language for packets.",
    "",
    "  nova build SRC [-o OBJ] ..     compiles a source and saves its object",
    "  nova run OBJ-or-SRC MEM ..     runs an object, or the code of a source, on a memory text",
    "  nova list OBJ-or-SRC [MEM..]   lists code with its labels, moves and spills",
    "  nova check SRC-or-FOLDER ..    prints where sources are refused, what may be wrong with them, and how large they are",
    "  nova test SRC-or-FOLDER ..     runs sources on the memory texts beside them, and compares the outcomes",
    "  nova trace SRC MEM             prints which line of a source made each write, by which calls",
    "  nova page SRC [MEM..]          makes a page of HTML on a source and its code",
    "  nova forms SRC [FORM]          prints the forms between the source and its code",
    "  nova fmt SRC ..                formats sources: sets their blanks, and leaves tokens, comments and ends of lines",
    "  nova replay OBJ-or-SRC IN OUT  runs the packets of a capture through code, and writes a capture of what comes out",
    "  nova asm TEXT [-o OBJ]         assembles an assembly text and saves its object",
    "  nova mem MEM                   prints a memory text of a readable one, or the other way round",
    "  nova lsp                       answers an editor, as a language server on the standard input and output",
    "  nova explain CODE              prints what a refusal means, as `nova explain type 14`",
    "  nova help [COMMAND]            prints the options of a command",
    "  nova --version                 prints the version",
    "",
    "Options come before or after names, as `--steps 100` or `--steps=100`; after `--` each word is a name.",
    "As an input `-` is the standard input, as an output the standard output; a file called `-` is written `./-`.",
    "Faults go to the standard error, as `SRC:LINE:COLUMN: error: ..`. With `--json` each is an object of JSON on a line.",
    "On a terminal they are coloured, unless NO_COLOR is set.",
    "",
    "Status  0  done; of `run`, the run ended; of `test`, all passed",
    "        1  refused or failed; of `run`, an exception, a fault of an access, or all steps were taken",
    "        2  the words are no command",
    "`novac` is the compiler for programs that call it: its words, lines and statuses are fixed.",
];

const BUILD: [&str; 21] = [
    "nova build SRC [-o OBJ] [--report FILE] [--slots N] [--budget N] [--store N] [--weights FILE] [--deny-warnings]",
    "           [--allow NAMES] [--json | --sarif]",
    "",
    "Compiles the source SRC, saves the object, and prints how many instructions it has, what its moves between banks cost,",
    "and whether a choice of banks may be cheaper. `optimal` means that none is. It says nothing of the other instructions.",
    "It warns of what may be a mistake, as `nova check` does.",
    "",
    "  -o OBJ           where the object is saved; by default SRC with `.obj` in place of `.nova`",
    "  --report FILE    saves the report on the banks with its certificate, which `novac check FILE` checks",
    "  --slots N        words of scratch for spilled values, 0 to 128; by default 128",
    "  --budget N       branches of the search for banks, 1 to 1000000; by default 2000",
    "  --store N        instructions of the code, 1 to 1048576; by default 2048",
    "  --weights FILE   how often each label is entered: moves there cost that much more",
    "  --deny-warnings  refuses a source that it warns of, and saves nothing",
    "  --allow NAMES    leaves out warnings of these names, with commas between them; `nova explain warnings` has them",
    "  --json           prints each fault and each warning as an object of JSON on a line",
    "  --sarif          prints them as one log in the Static Analysis Results Interchange Format 2.1.0",
    "",
    "A move between banks costs 1, an access to a slot 16, each times the weight of its label, which is 1 by default.",
    "Two things are printed of the cost: that of the choice of banks, and how many instructions the code has of each kind.",
    "These may be fewer, since needless ones are removed.",
];

const RUN: [&str; 18] = [
    "nova run OBJ-or-SRC MEM [--steps N] [--budget N] [--profile] [--counts FILE] [--trace] [--until WHAT]",
    "",
    "Runs the code of an object, or of a source that is compiled in haste, on the memories and arguments of the memory",
    "text MEM. Prints the outcome, and on the standard error how many steps it took.",
    "",
    "  --steps N        how many steps it may take, 1 to 100000000; by default 1000000",
    "  --budget N       of a source: the branches of the search for banks, 1 to 1000000; without it the search is cut short.",
    "                   Where a cheaper choice of banks may be there, the standard error says so",
    "  --profile        prints on the standard error how many steps it took in each label, and how often it was entered",
    "  --counts FILE    saves how often each label was entered: `nova build --weights FILE` of the same source takes",
    "                   that into account",
    "  --trace          of a source: prints the calls, accesses and raises that the interpreter makes and the values that",
    "                   variables get, each with its line, in place of the outcome of the code",
    "  --until WHAT     ends the trace with the first `write`, the first `raise`, or the first that begins on a line, 1 to",
    "                   1000000; a trace is then asked for",
    "",
    "The status is 0 where the program ended; 1 where it raised an exception that no handler takes, accessed an address",
    "outside of a memory, or had not ended after all steps.",
];

const LIST: [&str; 11] = [
    "nova list OBJ-or-SRC [MEM..] [--budget N]",
    "",
    "Lists the code of an object, or of a source that is compiled in haste: the index of each instruction, the labels at",
    "their starts, and which instructions are moves, literals or accesses to slots. Of a source, each label is followed by",
    "the lines of the single-use form that its instructions come from, and above an access, a raise or an end stands the",
    "line of the source that it comes from: where one place of the source alone can be it, or where the code is run on",
    "memory texts MEM beside the source. Then labels have the names of functions, too. An instruction without such a line",
    "may come from any.",
    "",
    "  --budget N       of a source: the branches of the search for banks, 1 to 1000000; without it the search is cut short.",
    "                   Where a cheaper choice of banks may be there, the standard error says so",
];

const CHECK: [&str; 13] = [
    "nova check SRC-or-FOLDER .. [--verbose] [--deny-warnings] [--allow NAMES] [--json | --sarif]",
    "",
    "Prints on the standard error where each source is refused, with line and column, what is wrong and what helps: the",
    "first type fault of each function. Of a source without a fault it warns of what may be a mistake, as of an unused",
    "variable, and prints on the standard output how large it is. Of a FOLDER each source in it is checked.",
    "",
    "  --verbose        prints the sizes of all its parts",
    "  --deny-warnings  ends with 1 where it warns of a source",
    "  --allow NAMES    leaves out warnings of these names, with commas between them; `nova explain warnings` has them",
    "  --json           prints each fault and each warning as an object of JSON on a line, and no sizes",
    "  --sarif          prints them as one log in the Static Analysis Results Interchange Format 2.1.0, and no sizes",
    "",
    "The status is 1 where a source is refused. A warning alone doesn't change it.",
];

const TEST: [&str; 22] = [
    "nova test SRC-or-FOLDER .. [--steps N] [--budget N] [--case NAME] [--update] [--coverage] [--interpret]",
    "          [--tap | --junit]",
    "",
    "Runs each source NAME.nova on the memory texts NAME*.mem and NAME*.nmem in its folder, by the interpreter and by its",
    "compiled code. Both have to print the same outcome. Where a memory text X.mem or X.nmem has an outcome text X.out",
    "beside it, they have to print that, but for a line that names an exception. Of a FOLDER each source in it is tested.",
    "",
    "  --steps N        how many steps the code, and how many calls the interpreter may take, 1 to 100000000; by default",
    "                   1000000",
    "  --budget N       the branches of the search for banks, 1 to 1000000; without it the search is cut short",
    "  --case NAME      runs the memory text of this name alone, with or without its ending",
    "  --update         writes the outcome text of each memory text whose outcome is another one or has none, where interpreter",
    "                   and code agree",
    "  --coverage       tells each function, statement, arm and handler that no memory text reaches, and how many parts are",
    "                   reached",
    "  --interpret      runs the interpreter alone, and compiles nothing",
    "  --tap, --junit   prints the results in the form of the Test Anything Protocol, or of JUnit",
    "",
    "Prints a line for each memory text, the first line that differs where one failed, and how many passed and failed.",
    "A memory text belongs to the source with the longest name that it begins with.",
    "The status is 0 where all passed, and 1 where one failed, a source is refused, there is no memory text, or an outcome",
    "text has none.",
];

const TRACE: [&str; 9] = [
    "nova trace SRC MEM [--steps N] [--line N]",
    "",
    "Runs the program of the source SRC on the memory text MEM by its meaning, and prints each of its first 1024 writes with the",
    "line of its statement and the functions in progress. `nova test` says whether the code does the same.",
    "",
    "  --steps N        how many calls it may make, 1 to 100000000; by default 1000000",
    "  --line N         ends with the first write of this line, 1 to 1000000, if there is one",
    "",
    "The status is 1 where the source or the memory text is refused. How the run ended doesn't change it.",
];

const PAGE: [&str; 13] = [
    "nova page SRC [MEM..] [-o FILE] [--steps N] [--budget N]",
    "",
    "Compiles the source SRC in haste, and saves a page of HTML that needs no other file: the source, its sizes, its labels as",
    "a graph, how many values are live at each point, the banks of each value, and the listing with moves, literals and spills",
    "in colours.",
    "On each memory text MEM it also runs the code, and shows the outcome, how often each instruction ran, the packet before",
    "and after, the registers over time, and which line of the source each write comes from.",
    "",
    "  -o FILE          where the page is saved; by default SRC with `.html` in place of `.nova`",
    "  --steps N        how many steps a run may take, 1 to 100000000; by default 1000000",
    "  --budget N       the branches of the search for banks, 1 to 1000000; without it the search is cut short",
    "",
    "The status is 1 where the source or a memory text is refused. How a run ended doesn't change it.",
];

const FORMS: [&str; 9] = [
    "nova forms SRC [FORM]",
    "",
    "Prints the forms that the compiler makes of the source SRC one after the other, or one of them: `flat` (words and",
    "functions), `lowered` (each place that code goes on to has a label), `inlined` (one function), `closed` (labels that see",
    "their parameters alone), `contracted` (labels are merged), `simplified` (after all passes on flows), `single` (each value",
    "is used once; beside each line are its point and what is live there), or `measures` (the points of the single-use form,",
    "and its greatest numbers).",
    "",
    "The status is 1 where the source is refused.",
];

const FORMAT: [&str; 11] = [
    "nova fmt SRC .. [--check]",
    "",
    "Formats each source SRC: sets its blanks and its indentation, and saves it where that changes it. Tokens, comments and ends",
    "of lines stay, so a source compiles as before. Of `-`, the standard input, the formatted text is printed.",
    "",
    "  --check          saves and prints no text, but prints the names of the sources that would change",
    "",
    "A source with a faulty token is left as it is, and the fault is told: a byte that begins no token, a number that is too",
    "large or a name that is too long. Then no other source is saved either. A source with another fault is formatted.",
    "",
    "The status is 1 where a source is refused, and under `--check` where one would change.",
];

const ASM: [&str; 8] = [
    "nova asm TEXT [-o OBJ]",
    "",
    "Assembles the assembly text TEXT, saves the object that `novac asm` saves, and prints how many instructions it has.",
    "Where the text is refused it prints at which line and column, what is wrong and what helps.",
    "",
    "  -o OBJ           where the object is saved; by default TEXT with `.obj` in place of `.asm`",
    "",
    "The status is 1 where the text is refused.",
];

const MEM: [&str; 8] = [
    "nova mem MEM",
    "",
    "Of a file whose name ends in `.nmem`, a readable memory text, it prints the memory text that it says. Of another memory",
    "text it prints a readable text that says the same: the arguments, and each 16 bytes that aren't all zero.",
    "",
    "`run`, `test` and `page` take readable texts too, by the ending of their name. docs/MEMORY.md has the form.",
    "",
    "The status is 1 where the text is refused.",
];

const SERVE: [&str; 8] = [
    "nova lsp",
    "",
    "Serves an editor by the Language Server Protocol on the standard input and output: faults and warnings while one types,",
    "types and sizes under the cursor, definitions and uses, other names, completion, and the format of `nova fmt`.",
    "",
    "An editor starts it, and editors/README.md says how. It reads no file: the editor sends the texts.",
    "",
    "The status is 0 where the editor said `shutdown` and `exit`, and else 1.",
];

const REPLAY: [&str; 21] = [
    "nova replay OBJ-or-SRC IN OUT [--at Q] [--args 'W W ..'] [--length N] [--table AT:FILE ..] [--memory MEM] [--keep]",
    "    [--drop EXCEPTION ..] [--steps N] [--limit N] [--json]",
    "",
    "Runs the code of an object or a source on each packet of the capture IN, pcap or pcapng, each on the memories that the one",
    "before left, and writes what comes out to the capture OUT, with its time and its link header. A packet that raised an",
    "exception is counted and isn't written. docs/REPLAY.md says how programs are written for it.",
    "",
    "  --at Q           the quadword of SDRAM at which a packet stands, 0 to 65535; by default 0",
    "  --args 'W W ..'  the arguments of `main`; by default 0, or those of MEM",
    "  --length N       argument N is the packet's length, from 0; word N of the result, if it has one, what comes out of it",
    "  --table AT:FILE  puts the words of a CSV file into SRAM from AT on",
    "  --memory MEM     the memories before the first packet; by default zeros, as large as they can be",
    "  --keep           writes packets that raised an exception as they came",
    "  --drop EXCEPTION doesn't write those that raised this one, under `--keep`",
    "  --steps N        how many steps a packet may take, 1 to 100000000; by default 1000000",
    "  --limit N        ends after so many packets",
    "  --json           prints an object of JSON for each packet",
    "",
    "Prints on the standard error how many packets were forwarded, raised each exception, and had no such end.",
    "The status is 1 where a packet faulted, ran out of steps or was too long, or a capture is broken. What stands before that",
    "is written.",
];

const EXPLAIN: [&str; 4] = [
    "nova explain CODE",
    "",
    "Prints the page on a refusal, by the name in brackets at the end of a fault: `nova explain type 14`, and so",
    "`syntax deep` and the like; `nova explain status 9` explains a status of novac.",
];
