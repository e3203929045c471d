//! Texts and what is read from them, shown by their canonical text.

use dl_io::{Failed, MemorySink, write_all};
use dl_print::{
    write_edit, write_literal, write_number, write_refusal, write_tagged, write_theory,
};
use dl_read::{
    LineStop, ReadStop, read_bare_tagged, read_edit, read_file, read_literal, read_number,
    read_statement, read_tagged,
};
use std::alloc::Global;
use std::process::Abort;

fn write_line_stop(sink: &mut MemorySink, stop: LineStop) -> Result<(), Failed> {
    match stop {
        LineStop::Bad => write_all(sink, b"form"),
        LineStop::Variables => write_all(sink, b"variables"),
        LineStop::Memory => write_all(sink, b"memory"),
    }
}

fn write_read_stop(sink: &mut MemorySink, stop: &ReadStop) -> Result<(), Failed> {
    match stop {
        ReadStop::BadLine { line } => {
            write_number(sink, *line)?;
            write_all(sink, b" form")
        }
        ReadStop::Variables { line } => {
            write_number(sink, *line)?;
            write_all(sink, b" variables")
        }
        ReadStop::Edit { line, refusal } => {
            write_number(sink, *line)?;
            write_all(sink, b" ")?;
            write_refusal(sink, refusal)
        }
        ReadStop::Memory => write_all(sink, b"memory"),
    }
}

fn shown_file(alloc: Global, file: &[u8]) -> MemorySink {
    let mut sink = MemorySink::make(alloc, Vec::new(alloc));
    match read_file(alloc, file) {
        Ok(theory) => {
            let _ = write_theory(&mut sink, &theory);
        }
        Err(stop) => {
            let _ = write_read_stop(&mut sink, &stop);
        }
    }
    sink
}

fn shown_edit(alloc: Global, line: &[u8]) -> MemorySink {
    let mut sink = MemorySink::make(alloc, Vec::new(alloc));
    match read_edit(alloc, line) {
        Ok(edit) => {
            let _ = write_edit(&mut sink, &edit);
        }
        Err(stop) => {
            let _ = write_line_stop(&mut sink, stop);
        }
    }
    sink
}

fn shown_tagged(alloc: Global, line: &[u8]) -> MemorySink {
    let mut sink = MemorySink::make(alloc, Vec::new(alloc));
    match read_tagged(alloc, line) {
        Ok(tagged) => {
            let _ = write_tagged(&mut sink, &tagged);
        }
        Err(stop) => {
            let _ = write_line_stop(&mut sink, stop);
        }
    }
    sink
}

fn shown_literal(alloc: Global, line: &[u8]) -> MemorySink {
    let mut sink = MemorySink::make(alloc, Vec::new(alloc));
    match read_literal(alloc, line) {
        Ok(literal) => {
            let _ = write_literal(&mut sink, &literal);
        }
        Err(stop) => {
            let _ = write_line_stop(&mut sink, stop);
        }
    }
    sink
}

/// A text, and what is shown of what is read from it.
type Row = (&'static [u8], &'static [u8]);

const FILES: [Row; 15] = [
    (b"", b""),
    (b"#\xff\xfe", b""),
    (b"r1: p(X) => q", b"1 variables"),
    (b"r1: p => q # (X)", b"r1: p => q\n"),
    (b"r1: p => q\nr2: q\n(\n", b"2 form"),
    (b"r1: p => q\nr2: p ~> -q\n=> p q\n", b"3 form"),
    (b"r1 > r2\nr1: => p\nr2: => -p\nr2 > r1", b"4 cycle r1 r2"),
    (b"r: => p\nr > r", b"2 cycle r"),
    (
        b"a: => p\nb: => p\nc: => p\na > b\nb > c\nc > a",
        b"6 cycle a b c",
    ),
    (b"r[O]: => pay", b"r: => [O]pay\n"),
    (
        b"r[O]: [P]a, b -> [Q]-pay\ns[O]: >> a",
        b">> [O]a\nr: [P]a, b -> [Q]-pay\n",
    ),
    (
        b"# notes\r\n  a,b=>-c   # body\r\n>>a\r\nr[O]: -> pay\r\nr > _2\r\n",
        b">> a\n_2: a, b => -c\nr: -> [O]pay\nr > _2\n",
    ),
    (b"_2: => p\n=> q\n", b"2 label _2"),
    (b"a > b\n>> p\n>> p\n>> p\n", b"3 fact"),
    (b"a: => p\nz > a\nz > y\n", b"2 unknown z"),
];

#[test]
fn files_load_or_are_refused(rt: HostRuntime) {
    for (file, shown) in FILES.iter() {
        let sink = shown_file(rt.alloc(), file);
        assert!(rt; sink.bytes() == *shown);
    }
}

const BODIES: [Row; 5] = [
    (b"r: a, b, c => g", b"r: a, b, c => g\n"),
    (b"r: a, b, c, d -> g", b"r: a, b, c, d -> g\n"),
    (
        b"r:a,b,c,[O]-d,e,f=>[P]g",
        b"r: a, b, c, [O]-d, e, f => [P]g\n",
    ),
    (b"r: a, b, c, d, e ~> g # h, i", b"r: a, b, c, d, e ~> g\n"),
    (b"r: a, b, c, , d => g", b"1 form"),
];

#[test]
fn bodies_are_read_whole(rt: HostRuntime) {
    for (file, shown) in BODIES.iter() {
        let sink = shown_file(rt.alloc(), file);
        assert!(rt; sink.bytes() == *shown);
    }
}

const EDITS: [Row; 18] = [
    (b"add r: => p", b"add r: => p"),
    (b" add\tr[O]:a,-b->p # c", b"add r: a, -b -> [O]p"),
    (b"add >>p", b"add >> p"),
    (b"add a>b", b"add a > b"),
    (b"drop r", b"drop r"),
    (b"drop >> [O]-q", b"drop >> [O]-q"),
    (b"drop a > b #", b"drop a > b"),
    (b"add>> p", b"form"),
    (b"drop>> p", b"form"),
    (b"add => p", b"form"),
    (b"add", b"form"),
    (b"add # r: => p", b"form"),
    (b"drop r: >> q", b"form"),
    (b"drop a > b > c", b"form"),
    (b"hello", b"form"),
    (b"add r: p(X) => q", b"variables"),
    (b"hello (", b"variables"),
    (b"hello # (", b"form"),
];

#[test]
fn requests_make_edits(rt: HostRuntime) {
    for (line, shown) in EDITS.iter() {
        let sink = shown_edit(rt.alloc(), line);
        assert!(rt; sink.bytes() == *shown);
    }
}

const TAGGED: [Row; 10] = [
    (b"+D penguin", b"+D penguin"),
    (b"-d \t[O] - p", b"-d [O]-p"),
    (b"+a p ", b"+a p"),
    (b"-s p # c", b"-s p"),
    (b"+ D p", b"form"),
    (b"+Dp", b"form"),
    (b"+x p", b"form"),
    (b" +D p", b"form"),
    (b"+", b"form"),
    (b"+D p(", b"variables"),
];

#[test]
fn tagged_literals_are_read(rt: HostRuntime) {
    for (line, shown) in TAGGED.iter() {
        let sink = shown_tagged(rt.alloc(), line);
        assert!(rt; sink.bytes() == *shown);
    }
    assert!(rt; read_bare_tagged(rt.alloc(), b"+D p").is_ok());
    assert!(rt; read_bare_tagged(rt.alloc(), b"+D p # c").is_err());
}

const LITERALS: [Row; 5] = [
    (b" [ O ] - pay_1 # c", b"[O]-pay_1"),
    (b"p", b"p"),
    (b"--p", b"form"),
    (b"-[O]p", b"form"),
    (b"p(x)", b"variables"),
];

#[test]
fn literals_and_statements_are_read(rt: HostRuntime) {
    for (line, shown) in LITERALS.iter() {
        let sink = shown_literal(rt.alloc(), line);
        assert!(rt; sink.bytes() == *shown);
    }
    assert!(rt; read_statement(rt.alloc(), b"a->-b").is_ok());
    assert!(rt; read_statement(rt.alloc(), b"a > b > c").is_err());
}

const NUMBERS: [(&[u8], Option<u64>); 10] = [
    (b"0", Some(0)),
    (b"64", Some(64)),
    (b"9999999999999999999", Some(9_999_999_999_999_999_999)),
    (b"10000000000000000000", None),
    (b"", None),
    (b"00", None),
    (b"07", None),
    (b"+7", None),
    (b"-0", None),
    (b"7 ", None),
];

#[test]
fn numbers_have_one_spelling(rt: HostRuntime) {
    for (word, number) in NUMBERS.iter() {
        assert!(rt; read_number(word) == *number);
    }
}
