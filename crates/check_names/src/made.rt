//! Sets of files that are made by number: each from rules by drawing one of several forms again and again.

use crate::case::add_source;
use check_files::Draws;
use mojom_compile::Source;
use std::alloc::{AllocError, Global};

/// How many forms are drawn for one set at most.
const MOST_DRAWS: usize = 4_000;

/// The forms of sets: of files, names, values, kinds, and ordinals and versions.
fn set_forms(letter: char) -> &'static str {
    match letter {
        'A' =>
            "$F|a.mojom%$N|a.mojom%$N|a.mojom%$V|a.mojom%$V|a.mojom%$K|a.mojom%$K|a.mojom%$O|a.mojom%$O",
        'F' => "a.mojom%$istruct A { };^b.mojom%$istruct B { $t f; };^c.mojom%$istruct C { $t f; };\
            |c.mojom%$istruct C { $t f; };^b.mojom%$istruct B { $t f; };^$g.mojom%$istruct A { };",
        'i' =>
            "||import \"a.mojom\"; |import \"a.mojom\"; |import \"b.mojom\"; |import \"c.mojom\"; |$j",
        'j' => "import \"no.mojom\"; |import \"b.mojom\"; import \"a.mojom\"; ",
        't' => "int8|int8|A|B",
        'g' => "a|a|a|a|a|a|b|c",
        _ => "",
    }
}

/// The forms of what names are looked up in.
fn name_forms(letter: char) -> &'static str {
    match letter {
        'N' =>
            "module a.b;\nimport \"b.mojom\";\n$l^b.mojom%module $m;\nstruct T { };\nenum E { A, D };\n\
            const int16 K = 5;\nstruct U { const int8 N = 4; };\n$d\n|module m;\n$l|module a.b;\n$l",
        'l' => "struct S { enum E { A, B = $v }; const int8 N = 1; $y f0; };\n$n\n$o\n$d\n\
            |$o\n$n\n[MinVersion=$v] struct S { [MinVersion=N] enum E { A, B }; const int8 N = 1; $y f0; };\n",
        'n' =>
            "interface I { const int32 N = 3; enum E { A = $v }; M(T p) => ([MinVersion=$v] int8 p); };\
            |interface I { const int64 N = $v; enum E { A = N }; M($y p); };",
        'o' =>
            "struct T { };\nenum E { A, C = $v };\nconst int8 N = 2;|enum E { A };\nunion T { int8 a; };\nconst int8 N = 3;",
        'm' => "a|a|a|a|a.b.c|c|a.b|a.b.S|m",
        'v' => "A|A|E.A|S.E.A|N|N|S.N|I.N|a.b.N|b.N|m.N|S.E.B|I.E.A|a.b.E.A|1|1|$Y",
        'Y' => "K|U.N|a.K|E.C|E.D|b.S.E.B|Q|S|I|E|N.A|a.b|int8|a.b.S.E.A.B",
        'y' =>
            "T|T|S|E|E|S.E|I.E|a.b.T|b.T|m.T|m.S.E|int8|pending_remote<I>|pending_receiver<a.b.I>|$z",
        'z' =>
            "U|a.T|a.U|I|N|Q|E.A|pending_remote<T>|pending_remote<int8>|a.Q|c.T|map<E, $y>|array<T>?",
        'd' => "|||||||||struct T { };|const int8 N = 2;|enum string { A };|$D|$D",
        'D' =>
            "struct W { int8 a; int8 a; const int8 a = 1; };|interface X { M(int8 a, int8 a); };|enum R { A, A };\
            |union Y { int8 a; int8 b; int8 a; };|interface P { M(int8 a) => (int8 a); };|interface H { M(); M(); };",
        _ => "",
    }
}

/// The forms of what has values.
fn value_forms(letter: char) -> &'static str {
    match letter {
        'V' => "enum E { A, B = $w };\nstruct Z { };\nunion V { int8 a; };\ninterface J { };\n$X",
        'X' => "$0$1$2$3$4|$3$1$0$4$2|$2$4$1$3$0|$4$0$3$2$1",
        '0' => "const $k C0 = $w;\n",
        '1' => "const $k C1 = $w;\n",
        '2' => "const $k C2 = $w;\n",
        '3' => "enum F { M0, M1 = $w, M2 };\n|enum F { M0 = $w, M1, M2 = $w };\n",
        '4' =>
            "struct S { $f };\nstruct R { $f };\n|struct S { [MinVersion=$w] $f };\nunion U { [MinVersion=$w] int8 a; };\n",
        'k' => "int32|int32|int64|int64|int64|uint64|uint32|int16|$q",
        'q' =>
            "float|double|array<int8>|E|Z|V|pending_remote<J>|map<int8, bool>|handle|int8?|string?|array<float>|bool|string",
        'w' => "C0|C1|C2|F.M0|F.M1|F.M2|E.A|E.B|1|1|1|2|2|3|7|$x",
        'x' =>
            "300|-1|true|\"s\"|4294967296|-129|C0|-2147483648|2147483647|2147483648|18446744073709551615|-32769",
        'f' =>
            "int32 f = $w;|int64 f = $w;|E f = E.A;|F f = F.M1;|E f;|bool f = true;|string f = \"s\";|$5|$5",
        '5' =>
            "E f = $w;|float f = $w;|bool f = $w;|array<int8> f = $w;|F f = E.A;|$k f = $w;|string? f = $w;|F? f = F.M0;",
        _ => "",
    }
}

/// The forms of types.
fn type_forms(letter: char) -> &'static str {
    match letter {
        'K' =>
            "module m;\nenum E { A };\nstruct Z { };\nunion V { int8 a; };\ninterface J { };\n$L",
        'L' =>
            "struct S { $a a; $a b; };\ninterface I { M($a a) => ($a a); };\n|struct S { const $s N = $b; $a a; };\
            |union U { $a a; $a b; };\nstruct S { U f; $a g; };\n|interface I { N() => ($a a, $a b); M($a a); };\n",
        'a' =>
            "int8|bool|string|string?|E|Z|Z?|V|V?|handle|handle<platform>?|array<$a>|array<$a>?|array<$a, 3>\
            |map<$c, $a>|pending_remote<J>|pending_receiver<J>?|pending_associated_remote<J>|m.Z|m.E|$e\
            |pending_associated_receiver<J>|uint16|int64",
        'c' => "int8|uint64|string|E|bool|m.E|$h",
        'h' => "string?|Z|int8?|float|array<int8>|E?|handle|V|Z|array<Z>|m.V",
        'e' =>
            "float|double?|int8?|E?|bool?|array<$a, 0>|map<$h, $a>|map<$h, int8>|array<float>|array<int8?>|array<string?, 0>\
            |array<$a, 4294967296>|array<map<$h, float>>|map<string?, $e>",
        's' => "string|string?|uint8|int8?|bool|float|double?|bool?",
        'b' => "\"a\\\"\\\\\\n\\tb\"|\"\"|200|1|true|false",
        _ => "",
    }
}

/// The forms of what has ordinals and versions.
fn ordinal_forms(letter: char) -> &'static str {
    match letter {
        'O' => "$Genum E { A };\nstruct Z { };\nunion V { bool a; };\ninterface J { };\n$H$I",
        'H' =>
            "$Gstruct S { $B };\n|$Gstruct S { $C };\n|$Gunion U { $G$p f0$Q; $p f1$Q; $p f2; };\n|$Genum H { $J };\n",
        'I' =>
            "interface I { $GM0$Q($R) => ($R); M1$Q($R); M2$Q(); };\n|$Gstruct T { $B };\n|interface I { M($R); };\n",
        'B' =>
            "$M$p f0; $r f1; $u f2;|$u f0@2; $p f1@0; $r f2@1;|$M$p f0@1; $M$p f1@0;|$p f0@1; $p f1@0; $r f2@2; $u f3;",
        'C' => "$M$p f0$P; $M$p f1$P; $M$p f2$P;|$p f0@1; $M$p f1; $p f2@0;|",
        'R' =>
            "|$M$p f0|$p f0@1, $p f1@0|$p f0, $r f1, $u f2|$u f0@2, $p f1@0, $r f2@1|$M$p f0$P, $M$p f1$P",
        'M' =>
            "||||[MinVersion=1] |[MinVersion=2] |[MinVersion=E.A] |[A, MinVersion=2, MinVersion=1] |$S",
        'S' => "[MinVersion=$T] |[MinVersion] |[MinVersion=1, MinVersion=$T] ",
        'T' => "4294967295|4294967296|-1|true|\"s\"|E.A|0",
        'r' => "[MinVersion=1] $W|[MinVersion=1] $W|[MinVersion=1] $p|$p",
        'u' => "[MinVersion=2] $W|[MinVersion=2] $W|[MinVersion=2] $p|[MinVersion=1] $W|$M$p",
        'W' =>
            "int8|bool|uint16|E|string?|Z?|handle?|array<int8>?|int64|V?|pending_receiver<J>?|map<E, V>?|int32?|bool?|E?",
        'p' =>
            "int8|bool|bool|int64|string?|Z?|V|E|string|uint16|array<V>|map<int8, E>|pending_remote<J>|handle|bool?|int16?|E?",
        'P' => "|||@0|@1|@2|$U",
        'Q' => "||||||@3|@7|@1|$U",
        'U' => "@4294967295|@4294967296|@0x2|@18446744073709551615",
        'G' => "|||||[Extensible] |[Stable] |[Extensible=false] |$S",
        'J' => "$EA, $EB, $EC = 5|$EA, $EB, $EC,||$EA = -1, B, C|$EA, $GB = 2147483647, C",
        'E' => "||[Default] |[A, Default] ",
        _ => "",
    }
}

/// The first of two texts that isn't empty.
fn first_of(first: &'static str, second: &'static str) -> &'static str {
    if first.is_empty() { second } else { first }
}

/// The forms of which one is drawn for a letter behind `$`, with `|` between two.
fn forms(letter: char) -> &'static str {
    let set = first_of(set_forms(letter), name_forms(letter));
    let values = first_of(value_forms(letter), type_forms(letter));
    first_of(first_of(set, values), ordinal_forms(letter))
}

/// One of the forms of a letter.
fn drawn(draws: &mut Draws, letter: char) -> &'static str {
    let forms = forms(letter);
    let count = forms.split('|').count();
    forms.split('|').nth(draws.below(count)).unwrap_or("")
}

/// The text of the set of this number: the name and the text of each file with `%` between the two, and `^` between
/// two files.
pub fn made_text(alloc: Global, number: u64) -> Result<String, AllocError> {
    let mut draws = Draws::new(number);
    let mut text = String::new(alloc);
    let mut left = String::from_str(alloc, "$A")?;
    for _ in 0..MOST_DRAWS {
        let Some((before, behind)) = left.as_str().split_once('$') else {
            break;
        };
        text.push_str(before)?;
        let mut letters = behind.chars();
        let form = drawn(&mut draws, letters.next().unwrap_or(' '));
        let behind = letters.as_str();
        left = format!(in alloc; "{form}{behind}")?;
    }
    text.push_str(left.as_str())?;
    Ok(text)
}

/// The files of a text: the name and the text of each with `%` between the two, and `^` between two files.
pub fn made_sources(alloc: Global, text: &str) -> Result<Vec<Source>, AllocError> {
    let mut sources = Vec::new(alloc);
    for file in text.split('^') {
        let (name, text) = file.split_once('%').unwrap_or((file, ""));
        add_source(alloc, &mut sources, name, text)?;
    }
    Ok(sources)
}
