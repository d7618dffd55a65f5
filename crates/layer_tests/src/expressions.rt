ghost use Rattle.tla_ast.specs.Listing.{IsTokenList};

use crate::dump::{push_node, push_place};
use core_expr::Memory;
use layout_parser::read_expr;
use std::alloc::{AllocError, Global};
use std::test::Fail;
use tla_ast::{Fault, Kind, Place, Tokens};
use tla_lexer::lex;

/// A text as the second line and the further lines of a module.
fn in_module(alloc: Global, text: &str) -> Result<Vec<u8>, AllocError> {
    let mut module = Vec::from_slice(alloc, b"---- MODULE M ----\n")?;
    module.extend_from_slice(text.as_bytes())?;
    module.extend_from_slice(b"\n====")?;
    Ok(module)
}

/// How a text is read: from which token, in which region, under how many nestings, and whether the places are told.
#[derive(Clone, Copy, Debug)]
struct Way {
    from: u64,
    region: u64,
    depth: u64,
    places: bool,
}

const PLAIN: Way = Way {
    from: 0,
    region: 0,
    depth: 0,
    places: false,
};

fn push_refusal(
    alloc: Global,
    out: &mut Vec<u8>,
    place: &Place,
    kind: &Kind,
) -> Result<(), Memory> {
    let text = kind.text(alloc)?;
    out.extend_from_slice(b"refused ")?;
    push_place(out, place)?;
    out.push(b' ')?;
    out.extend_from_slice(text.bytes())?;
    Ok(())
}

/// Appends the place of the token after the expression and its node, or the refusal.
fn push_reading(alloc: Global, out: &mut Vec<u8>, tokens: &Tokens, way: &Way) -> Result<(), Memory>
    requires { IsTokenList tokens.now.list }
{
    if way.from >= tokens.list.len() as u64 || way.depth > 200 {
        return Ok(());
    }
    match read_expr(alloc, tokens, way.from, way.region, way.depth) {
        Ok((node, after)) => {
            if let Some(token) = tokens.list.get(after as usize) {
                push_place(out, &token.place)?;
            }
            out.push(b' ')?;
            push_node(out, &node, way.places)?;
            Ok(())
        }
        Err(Fault::At { place, kind }) => push_refusal(alloc, out, &place, &kind),
        Err(Fault::Memory) => Err(Memory),
    }
}

/// What the reader answers, as one line; nothing where the text has no tokens.
fn answer(alloc: Global, text: &str, way: &Way) -> Result<Vec<u8>, Memory> {
    let module = in_module(alloc, text)?;
    let mut out = Vec::new(alloc);
    if let Ok(tokens) = lex(alloc, module.as_slice()) {
        push_reading(alloc, &mut out, &tokens, way)?;
    }
    Ok(out)
}

fn is_answered(alloc: Global, text: &str, way: &Way, want: &str) -> Result<bool, Memory> {
    let got = answer(alloc, text, way)?;
    Ok(got.as_slice() == want.as_bytes())
}

/// Whether a text is refused at this place, with this kind.
fn is_refused(alloc: Global, text: &str, want: &str) -> Result<bool, Memory> {
    let line = format!(in alloc; "refused {want}")?;
    is_answered(alloc, text, &PLAIN, line.as_str())
}

/// Texts, with the place of the token after the expression and the node.
const READ: [(&str, &str); 117] = [
    ("a", "3:1 a"),
    (
        "<<TRUE, FALSE, BOOLEAN, STRING>>",
        "3:1 Tuple[TRUE FALSE BOOLEAN STRING]",
    ),
    (
        "340282366920938463463374607431768211455",
        "3:1 340282366920938463463374607431768211455",
    ),
    ("\"a b\"", "3:1 \"a b\""),
    ("1a + a_1", "3:1 +[1a a_1]"),
    ("a b", "2:3 a"),
    ("a = b)", "2:6 =[a b]"),
    ("a, b", "2:2 a"),
    ("a % b", "2:3 a"),
    ("a @", "2:3 a"),
    ("a [] b", "2:3 a"),
    ("a == b", "2:3 a"),
    ("((a))", "3:1 a"),
    ("f(a, 1)", "3:1 f()[a 1]"),
    ("f (g(a))", "3:1 f()[g()[a]]"),
    ("f\n(a)", "4:1 f()[a]"),
    ("TRUE(a)", "2:5 TRUE"),
    ("1 (a)", "2:3 1"),
    ("f(a)(b)", "2:5 f()[a]"),
    ("{}", "3:1 Enum[]"),
    ("{a, b}", "3:1 Enum[a b]"),
    ("{x \\in S}", "3:1 Enum[\\in[x S]]"),
    ("{x \\in S, T}", "3:1 Enum[\\in[x S] T]"),
    ("{x \\in S : P}", "3:1 Filter x[S P]"),
    ("{x \\in S = T : P}", "3:1 Filter x[=[S T] P]"),
    ("{x \\in S : y \\in T}", "3:1 Filter x[S \\in[y T]]"),
    ("{x : x \\in S}", "3:1 Image x[S x]"),
    (
        "{x + 1 : y \\in S \\cup T}",
        "3:1 Image y[\\cup[S T] +[x 1]]",
    ),
    ("{(x) \\in S : y \\in T}", "3:1 Image y[T \\in[x S]]"),
    ("{f(x) \\in S : y \\in T}", "3:1 Image y[T \\in[f()[x] S]]"),
    ("{<<a>> : x \\in S}", "3:1 Image x[S Tuple[a]]"),
    (
        "{~<<a>> \\in S : x \\in T}",
        "3:1 Image x[T ~[\\in[Tuple[a] S]]]",
    ),
    (
        "{(<<a>>) \\in S : x \\in T}",
        "3:1 Image x[T \\in[Tuple[a] S]]",
    ),
    (
        "{<<a>>.h \\in S : x \\in T}",
        "3:1 Image x[T \\in[.h[Tuple[a]] S]]",
    ),
    ("<<>>", "3:1 Tuple[]"),
    ("<<a, b>>", "3:1 Tuple[a b]"),
    ("<<A>>_v", "3:1 Angle[A v]"),
    ("<<A>>_<<x, y>>", "3:1 Angle[A Tuple[x y]]"),
    ("[A]_v", "3:1 Box[A v]"),
    ("[A]_(a + b)", "3:1 Box[A +[a b]]"),
    ("[A]_<<>>", "3:1 Box[A Tuple[]]"),
    ("[A]_f(x)", "2:6 Box[A f]"),
    ("[A]_v'.h", "3:1 .h['[Box[A v]]]"),
    ("[][A]_v", "3:1 [][Box[A v]]"),
    ("WF_v(A) /\\ SF_<<x>>(B)", "3:1 /\\[WF[v A] SF[Tuple[x] B]]"),
    ("WF_(v)(A)", "3:1 WF[v A]"),
    ("[x \\in S |-> x]", "3:1 Function x[S x]"),
    ("[x \\in S = T |-> x]", "3:1 Function x[=[S T] x]"),
    ("[S -> T]", "3:1 ->[S T]"),
    ("[x \\in S -> T]", "3:1 ->[\\in[x S] T]"),
    ("[a |-> 1, b |-> 2]", "3:1 Record(a,b)[a 1 b 2]"),
    ("[a : S, a : T]", "3:1 RecordSet(a,a)[a S a T]"),
    ("[f EXCEPT ![a] = b]", "3:1 EXCEPT(![a])[f b]"),
    (
        "[f EXCEPT ![a].h[b] = @ + 1, !.g = @]",
        "3:1 EXCEPT(![a].h[b];!.g)[f +[@ 1] @]",
    ),
    (
        "[f EXCEPT !.h = [@ EXCEPT ![@] = g(@)]]",
        "3:1 EXCEPT(!.h)[f EXCEPT(![@])[@ g()[@]]]",
    ),
    ("[a + b EXCEPT !.h = 1]", "3:1 EXCEPT(!.h)[+[a b] 1]"),
    ("\\A x : P", "3:1 \\A(x)[P]"),
    ("\\E x, y : P", "3:1 \\E(x,y)[P]"),
    (
        "\\A x, y \\in S, z \\in T : P",
        "3:1 \\A(x,y in S;z in T)[P]",
    ),
    ("CHOOSE x : P", "3:1 CHOOSE(x)[P]"),
    ("CHOOSE x \\in S : P", "3:1 CHOOSE(x in S)[P]"),
    ("IF a THEN b ELSE c", "3:1 IF[a b c]"),
    ("CASE a -> b", "3:1 CASE[a b]"),
    ("CASE a -> b [] []c -> d", "3:1 CASE[a b [][c] d]"),
    ("CASE a -> b [] OTHER -> c", "3:1 CASE-OTHER[a b c]"),
    (
        "CASE a -> CASE b -> c [] OTHER -> d",
        "3:1 CASE[a CASE-OTHER[b c d]]",
    ),
    (
        "CASE a -> (CASE b -> c) [] OTHER -> d",
        "3:1 CASE-OTHER[a CASE[b c] d]",
    ),
    ("CASE a -> b [] OTHER -> c [] d", "2:27 CASE-OTHER[a b c]"),
    ("LET a == 1 IN a", "3:1 LET(a==1)[a]"),
    (
        "LET f(x, y) == x g == f(1, 2) IN g",
        "3:1 LET(f(x,y)==x;g==f()[1 2])[g]",
    ),
    ("a + IF b THEN c ELSE d + e", "3:1 +[a IF[b c +[d e]]]"),
    ("a = \\A x : x = y => z", "3:1 =[a \\A(x)[=>[=[x y] z]]]"),
    ("(CHOOSE x : a) = b", "3:1 =[CHOOSE(x)[a] b]"),
    ("a + b * c", "3:1 +[a *[b c]]"),
    ("a * b + c", "3:1 +[*[a b] c]"),
    ("a - b + c - d", "3:1 +[-[a b] -[c d]]"),
    ("-a * b", "3:1 -[*[a b]]"),
    ("-a + -b", "3:1 +[-[a] -[b]]"),
    ("a * -b + c", "3:1 +[*[a -[b]] c]"),
    ("a .. b + c", "3:1 ..[a +[b c]]"),
    ("~a = b /\\ c", "3:1 /\\[~[=[a b]] c]"),
    ("a /\\ b => ~c <=> d", "3:1 =>[/\\[a b] <=>[~[c] d]]"),
    (
        "a \\leq b \\equiv \\lnot c \\land d",
        "3:1 <=>[<=[a b] /\\[~[c] d]]",
    ),
    ("DOMAIN f \\cup S", "3:1 \\cup[DOMAIN[f] S]"),
    ("UNION SUBSET S", "3:1 UNION[SUBSET[S]]"),
    ("SUBSET f[x]", "3:1 SUBSET[Index[f x]]"),
    ("a \\in S \\ T", "3:1 \\in[a \\[S T]]"),
    ("a \\cup b \\cup c = a", "3:1 =[\\cup[\\cup[a b] c] a]"),
    ("x'' = f[x]'", "3:1 =['['[x]] '[Index[f x]]]"),
    ("f'[x].h[y]", "3:1 Index[.h[Index['[f] x]] y]"),
    ("-x'", "3:1 -['[x]]"),
    ("[]<>a", "3:1 [][<>[a]]"),
    (
        "[]a /\\ ENABLED b ~> UNCHANGED c",
        "3:1 ~>[/\\[[][a] ENABLED[b]] UNCHANGED[c]]",
    ),
    ("[]f[x]", "3:1 [][Index[f x]]"),
    ("[]x'.h", "3:1 [][.h['[x]]]"),
    ("<>x'[1] => a", "3:1 =>[<>[Index['[x] 1]] a]"),
    ("/\\ a", "3:1 AND[a]"),
    ("/\\ a /\\ b", "3:1 AND[/\\[a b]]"),
    ("/\\ a\n/\\ b", "4:1 AND[a b]"),
    ("  /\\ A\n  /\\ B \\/ C", "4:1 AND[A \\/[B C]]"),
    ("  /\\ A\n /\\ B", "4:1 /\\[AND[A] B]"),
    ("/\\ a\n  /\\ b", "4:1 AND[/\\[a b]]"),
    ("/\\ a\n\\/ b", "4:1 \\/[AND[a] b]"),
    ("/\\ \\/ a\n   \\/ b\n/\\ c", "5:1 AND[OR[a b] c]"),
    ("/\\ /\\ a\n/\\ b", "4:1 AND[AND[a] b]"),
    ("  /\\ a = /\\ b\n         /\\ c", "4:1 AND[=[a AND[b c]]]"),
    ("  /\\ a\n  /\\ b\n=> c", "5:1 =>[AND[a b] c]"),
    ("/\\ a\n/\\ b\n => c", "5:1 AND[a =>[b c]]"),
    ("a /\\\n/\\ b", "4:1 /\\[a AND[b]]"),
    ("~/\\ a\n /\\ b", "4:1 ~[AND[a b]]"),
    ("{/\\ a\n /\\ b}", "4:1 Enum[AND[a b]]"),
    ("\t/\\ a\n        /\\ b", "4:1 AND[a b]"),
    ("/\\ a\n.h", "4:1 .h[AND[a]]"),
    ("/\\ f\n(a)", "3:1 AND[f]"),
    ("/\\ a\nb", "3:1 AND[a]"),
    ("/\\ \\A x :\n x\n/\\ b", "5:1 AND[\\A(x)[x] b]"),
    ("\\/ a => b\n\\/ c'", "4:1 OR[=>[a b] '[c]]"),
];

#[test]
fn texts_that_are_read(rt: HostRuntime) -> Result<(), Fail> {
    for (text, want) in READ.iter() {
        assert!(rt; is_answered(rt.alloc(), text, &PLAIN, want)?, "{text}");
    }
    Ok(())
}

/// The same with the place of each node and bound name.
const PLACED: [(&str, &str); 19] = [
    ("(a) + f(b, 1)", "3:1 +@2:5[a@2:2 f()@2:7[b@2:9 1@2:12]]"),
    (
        "~~a'[b].h",
        "3:1 ~@2:1[~@2:2[.h@2:8[Index@2:5['@2:4[a@2:3] b@2:6]]]]",
    ),
    ("{\"s\", TRUE}", "3:1 Enum@2:1[\"s\"@2:2 TRUE@2:7]"),
    ("{ x \\in S : x}", "3:1 Filter x@2:3[S@2:9 x@2:13]"),
    ("{x : y \\in S}", "3:1 Image y@2:6[S@2:12 x@2:2]"),
    ("[ x \\in S |-> 1]", "3:1 Function x@2:3[S@2:9 1@2:15]"),
    ("[S -> <<T>>]", "3:1 ->@2:1[S@2:2 Tuple@2:7[T@2:9]]"),
    (
        "a = [f EXCEPT ![a].h = @]",
        "3:1 =@2:3[a@2:1 EXCEPT(![a@2:17].h)@2:5[f@2:6 @@2:24]]",
    ),
    (
        "[a |-> 1,\nb |-> c]",
        "4:1 Record(a,b)@2:1[a@2:2 1@2:8 b@3:1 c@3:7]",
    ),
    ("[a : S]", "3:1 RecordSet(a)@2:1[a@2:2 S@2:6]"),
    ("[][A]_(v)", "3:1 []@2:1[Box@2:3[A@2:4 v@2:8]]"),
    (
        "a /\\ <<A>>_v",
        "3:1 /\\@2:3[a@2:1 Angle@2:6[A@2:8 v@2:12]]",
    ),
    ("WF_v(A)", "3:1 WF@2:1[v@2:4 A@2:6]"),
    (
        " /\\ a\n /\\ b\n=> c",
        "5:1 =>@4:1[AND@2:2[a@2:5 b@3:5] c@4:4]",
    ),
    (
        "\\A x, y \\in S, z \\in T : P",
        "3:1 \\A(x@2:4,y@2:7 in S@2:13;z@2:16 in T@2:22)@2:1[P@2:26]",
    ),
    ("~CHOOSE x : y", "3:1 ~@2:1[CHOOSE(x@2:9)@2:2[y@2:13]]"),
    ("(IF a THEN b ELSE c)", "3:1 IF@2:2[a@2:5 b@2:12 c@2:19]"),
    (
        "CASE a -> b [] OTHER -> c",
        "3:1 CASE-OTHER@2:1[a@2:6 b@2:11 c@2:25]",
    ),
    (
        "a..LET f(x) == x g == 1 IN g",
        "3:1 ..@2:2[a@2:1 LET(f@2:8(x@2:10)==x@2:16;g@2:18==1@2:23)@2:4[g@2:28]]",
    ),
];

#[test]
fn places_of_nodes(rt: HostRuntime) -> Result<(), Fail> {
    let way = Way {
        places: true,
        ..PLAIN
    };
    for (text, want) in PLACED.iter() {
        assert!(rt; is_answered(rt.alloc(), text, &way, want)?, "{text}");
    }
    Ok(())
}

/// Texts with no reading, and the fault.
const REFUSED: [(&str, &str); 186] = [
    ("[A]_ ,", "2:6 Expected"),
    ("{<<a>> \\in [A]_ : b}", "2:17 Unsupported :"),
    ("", "3:1 Expected"),
    (")", "2:1 Expected"),
    ("+ a", "2:1 Expected"),
    ("a +", "3:1 Expected"),
    ("~", "3:1 Expected"),
    ("<1>a", "2:1 Expected"),
    ("OBVIOUS", "2:1 Expected"),
    ("(a", "3:1 Expected"),
    ("(a b)", "2:4 Expected"),
    ("()", "2:2 Expected"),
    ("f()", "2:3 Expected"),
    ("f(a,)", "2:5 Expected"),
    ("f(a b)", "2:5 Expected"),
    ("a[ ]", "2:4 Expected"),
    ("a[b", "3:1 Expected"),
    ("a.1", "2:3 Expected"),
    ("a.TRUE", "2:3 Expected"),
    ("{,}", "2:2 Expected"),
    ("{a,}", "2:4 Expected"),
    ("{a b}", "2:4 Expected"),
    ("{x : }", "2:6 Expected"),
    ("{x : y}", "2:7 Expected"),
    ("{x : 1 \\in S}", "2:6 Expected"),
    ("{x : y \\in }", "2:12 Expected"),
    ("{x \\in S : }", "2:12 Expected"),
    ("{x \\in : P}", "2:8 Expected"),
    ("{x, y : x \\in S}", "2:7 Expected"),
    ("<<a,>>", "2:5 Expected"),
    ("<<a}", "2:4 Expected"),
    ("<<>>_v", "2:3 Expected"),
    ("<<A, B>>_v", "2:7 Expected"),
    ("<<A>>_1", "2:7 Expected"),
    ("[ ]", "2:3 Expected"),
    ("[a]", "2:3 Expected"),
    ("[A]_TRUE", "2:5 Expected"),
    ("[A]_[x]", "2:5 Expected"),
    ("[A]_<<x>>_y", "2:8 Expected"),
    ("[|-> a]", "2:2 Expected"),
    ("[S -> T,", "2:8 Unsupported ,"),
    ("[S -> ]", "2:7 Expected"),
    ("[a |-> ]", "2:8 Expected"),
    ("[a |-> 1, b : S]", "2:13 Expected"),
    ("[a |-> 1, b \\in S |-> 2]", "2:13 Expected"),
    ("[a : S, ]", "2:9 Expected"),
    ("[a \\in S : T]", "2:10 Expected"),
    ("[f EXCEPT]", "2:10 Expected"),
    ("[f EXCEPT !a = 1]", "2:12 Expected"),
    ("[f EXCEPT ![a]]", "2:15 Expected"),
    ("[f EXCEPT !.1 = a]", "2:13 Expected"),
    ("[f EXCEPT !.h = ]", "2:17 Expected"),
    ("[f EXCEPT !.h = a, .g = b]", "2:20 Expected"),
    ("@", "2:1 Expected"),
    ("[@ EXCEPT !.h = a]", "2:2 Expected"),
    ("[f EXCEPT ![@] = a]", "2:13 Expected"),
    ("[f EXCEPT !.h = @] + @", "2:22 Expected"),
    ("WF_v A", "2:6 Expected"),
    ("WF_1(A)", "2:4 Expected"),
    ("WF_v()", "2:6 Expected"),
    ("\\A : P", "2:4 Expected"),
    ("\\A x", "3:1 Expected"),
    ("\\A x, : P", "2:7 Expected"),
    ("\\A x y : P", "2:6 Expected"),
    ("\\A x \\in : P", "2:10 Expected"),
    ("\\A x \\in S, y : P", "2:15 Expected"),
    ("\\A x, y \\in S, z, w : P", "2:21 Expected"),
    ("\\E x :", "3:1 Expected"),
    ("CHOOSE x, y : P", "2:9 Expected"),
    ("CHOOSE x P", "2:10 Expected"),
    ("IF THEN", "2:4 Expected"),
    ("IF a ELSE b", "2:6 Expected"),
    ("IF a THEN b", "3:1 Expected"),
    ("CASE OTHER -> a", "2:6 Expected"),
    ("CASE a [] b", "2:8 Expected"),
    ("CASE a -> b [] c", "3:1 Expected"),
    ("CASE a -> b [] OTHER c", "2:22 Expected"),
    ("LET IN a", "2:5 Expected"),
    ("LET a IN b", "2:7 Expected"),
    ("LET a == IN b", "2:10 Expected"),
    ("LET a == 1 b", "3:1 Expected"),
    ("LET a == 1 2", "2:12 Expected"),
    ("LET f() == 1 IN f", "2:7 Expected"),
    ("LET f(a b) == 1 IN f", "2:9 Expected"),
    ("LET f((a)) == 1 IN f", "2:7 Expected"),
    ("LET f(<<a>>) == 1 IN f", "2:7 Expected"),
    ("LET f(x)[y] == 1 IN f", "2:9 Expected"),
    ("LET <<a>> == 1 IN a", "2:5 Expected"),
    ("/\\ (a\n)", "3:1 Expected"),
    ("/\\\nb", "3:1 Expected"),
    ("/\\ a\n/\\", "4:1 Expected"),
    ("/\\ a\n/\\\n/\\ b", "4:1 Expected"),
    ("/\\ IF a\nTHEN b ELSE c", "3:1 Expected"),
    ("(  /\\ a\n b)", "3:2 Expected"),
    ("a = b = c", "2:7 Precedence"),
    ("a => b => c", "2:8 Precedence"),
    ("a ~> b <=> c", "2:8 Precedence"),
    ("a /\\ b \\/ c", "2:8 Precedence"),
    ("a \\cup b \\cap c = a", "2:10 Precedence"),
    ("a \\in S = T", "2:9 Precedence"),
    ("a \\ b \\ c", "2:7 Precedence"),
    ("a .. b .. c", "2:8 Precedence"),
    ("a = b \\in c \\cup", "2:7 Precedence"),
    ("SUBSET S \\cup T", "2:10 Precedence"),
    ("[]a = b", "2:5 Precedence"),
    ("[]x'", "2:4 Precedence"),
    ("UNCHANGED x'", "2:12 Precedence"),
    ("[]x'.h = 1", "2:4 Precedence"),
    ("  /\\ A\n /\\ B \\/ C", "3:7 Precedence"),
    ("A => B => )", "2:8 Precedence"),
    ("A => B =>", "2:8 Precedence"),
    ("a = b = %", "2:7 Precedence"),
    ("a = b = (c", "2:7 Precedence"),
    ("f(a = b = )", "2:9 Precedence"),
    ("~a = b = \\A", "2:8 Precedence"),
    ("a = b /\\ )", "2:10 Expected"),
    ("[]x'[)", "2:6 Expected"),
    ("[]x'.1", "2:6 Expected"),
    ("[]x'[1] = )", "2:4 Precedence"),
    ("[]x')", "2:4 Precedence"),
    ("{a \\in S = ) : A}", "2:10 Precedence"),
    ("{a \\in S = T = U : A}", "2:14 Precedence"),
    ("[x \\in a = b = c |-> e]", "2:14 Precedence"),
    ("[x \\in S = (a = b = c) |-> e]", "2:10 Precedence"),
    ("{x \\in []y' : P}", "2:11 Precedence"),
    ("{x \\in a = b = c, P}", "2:10 Precedence"),
    ("[WF_a |-> b]", "2:7 Unsupported |->"),
    ("[SF_(a) |-> b]", "2:9 Unsupported |->"),
    ("(WF_a |-> b)", "2:7 Expected"),
    ("[WF_ |-> b]", "2:6 Expected"),
    ("{a \\in S = (b = c = d) : A}", "2:10 Precedence"),
    ("{a \\in (S = T = U) : A}", "2:15 Precedence"),
    ("[a \\in S = ) |-> A]", "2:10 Precedence"),
    ("[a \\in S = T -> A]", "2:10 Precedence"),
    ("{a \\in S = T, b}", "2:10 Precedence"),
    ("ASSUME a", "2:1 Unsupported ASSUME"),
    ("a = ASSUME b", "2:5 Unsupported ASSUME"),
    ("\\A x \\in ASSUME", "2:10 Unsupported ASSUME"),
    ("(a ASSUME b)", "2:4 Expected"),
    ("\\A ASSUME", "2:4 Expected"),
    ("[A]_ASSUME", "2:5 Expected"),
    ("(a :: b)", "2:4 Unsupported ::"),
    ("(a LAMBDA b)", "2:4 Unsupported LAMBDA"),
    ("LET RECURSIVE f", "2:5 Unsupported RECURSIVE"),
    ("LET f(_) == 1 IN f", "2:7 Unsupported _"),
    ("\\A _ : P", "2:4 Unsupported _"),
    ("LET f(g(_)) == 1 IN f", "2:8 Unsupported ("),
    ("LET f(a, g(_)) == 1 IN f", "2:11 Unsupported ("),
    ("LET f[x \\in S] == 1 IN f", "2:6 Unsupported ["),
    ("LET a == 1 f[x \\in S] == 1 IN f", "2:13 Unsupported ["),
    ("\\A <<x, y>> \\in S : P", "2:4 Unsupported <<"),
    ("\\E x, <<y>> \\in S : P", "2:7 Unsupported <<"),
    ("\\A x \\in S, <<y>> \\in T : P", "2:13 Unsupported <<"),
    ("CHOOSE <<x>> \\in S : P", "2:8 Unsupported <<"),
    ("{x : <<x, y>> \\in S}", "2:6 Unsupported <<"),
    ("[<<x>> \\in S |-> 1]", "2:14 Unsupported |->"),
    ("[1 |-> 2]", "2:4 Unsupported |->"),
    ("[a |-> 1 |-> 2]", "2:10 Unsupported |->"),
    ("f[a |-> b]", "2:5 Unsupported |->"),
    ("[IF A |-> B]", "2:7 Unsupported |->"),
    ("[\\A x \\in S |-> B]", "2:13 Unsupported |->"),
    ("[CHOOSE z |-> A]", "2:11 Expected"),
    ("[(a |-> b)]", "2:5 Expected"),
    ("[f EXCEPT ![a |-> b]", "2:15 Unsupported |->"),
    ("[f EXCEPT ![a] |-> b]", "2:16 Expected"),
    ("[f EXCEPT !.h = a |-> b]", "2:19 Unsupported |->"),
    ("{<<a>> \\in S : B}", "2:14 Unsupported :"),
    ("{<<a>> \\in : B}", "2:12 Unsupported :"),
    ("{<<a>> \\in IF A : B}", "2:17 Unsupported :"),
    ("{<<a>> \\in S, b : c}", "2:17 Unsupported :"),
    ("{<<a>> \\in (S : B)}", "2:15 Expected"),
    ("{<<a>>, b : c}", "2:11 Expected"),
    ("{(<<a>>) \\in S : B}", "2:19 Expected"),
    ("[a, b]", "2:3 Unsupported ,"),
    ("[,a]", "2:2 Unsupported ,"),
    ("f[a, b]", "2:4 Unsupported ,"),
    ("[x, y \\in S |-> 1]", "2:3 Unsupported ,"),
    ("[CHOOSE z, w : A]_x", "2:10 Unsupported ,"),
    ("[IF A THEN B, C]", "2:13 Unsupported ,"),
    ("[a |-> 1,, b |-> 2]", "2:10 Unsupported ,"),
    ("[f EXCEPT ![a, b] = c]", "2:14 Unsupported ,"),
    ("{f(z) : z, w \\in S}", "2:10 Unsupported ,"),
    ("{x \\in S : P, Q}", "2:13 Unsupported ,"),
    ("{x : x \\in S, y \\in T}", "2:13 Unsupported ,"),
    ("{x \\in S : g(a,,b)}", "2:16 Expected"),
    ("{g(a,, b) : x \\in S}", "2:6 Expected"),
];

#[test]
fn texts_that_are_refused(rt: HostRuntime) -> Result<(), Fail> {
    for (text, want) in REFUSED.iter() {
        assert!(rt; is_refused(rt.alloc(), text, want)?, "{text}");
    }
    Ok(())
}

/// The left-associative infix operators.
const LEFT: &str = "/\\ \\/ \\cup \\cap + - *";

/// The other infix operators.
const OTHER: &str = "=> <=> ~> = # < > <= >= \\in \\notin \\subseteq \\ ..";

/// The prefix operators.
const PREFIX: &str = "SUBSET UNION DOMAIN UNCHANGED ENABLED ~ - [] <>";

/// Whether one operator between two operands is read, and a second only where it is left-associative.
fn is_infix(alloc: Global, sign: &str, is_left: bool) -> Result<bool, Memory> {
    let pair = format!(in alloc; "a {sign} b")?;
    let node = format!(in alloc; "3:1 {sign}[a b]")?;
    let chain = format!(in alloc; "a {sign} b {sign} c")?;
    let column = sign.len().saturating_add(6);
    let want = if is_left {
        format!(in alloc; "3:1 {sign}[{sign}[a b] c]")?
    } else {
        format!(in alloc; "refused 2:{column} Precedence")?
    };
    let one = is_answered(alloc, pair.as_str(), &PLAIN, node.as_str())?;
    let two = is_answered(alloc, chain.as_str(), &PLAIN, want.as_str())?;
    Ok(one && two)
}

#[test]
fn operators(rt: HostRuntime) -> Result<(), Fail> {
    let alloc = rt.alloc();
    for sign in LEFT.split(' ') {
        assert!(rt; is_infix(alloc, sign, true)?, "{sign}");
    }
    for sign in OTHER.split(' ') {
        assert!(rt; is_infix(alloc, sign, false)?, "{sign}");
    }
    for sign in PREFIX.split(' ') {
        let text = format!(in alloc; "{sign} {sign} a")?;
        let want = format!(in alloc; "3:1 {sign}[{sign}[a]]")?;
        assert!(rt;
            is_answered(alloc, text.as_str(), &PLAIN, want.as_str())?,
            "{sign}"
        );
    }
    Ok(())
}

/// The signs and words of the language that the reader refuses by name.
const LEFT_OUT: [&str; 6] = [
    "++ -- ** / // ^ ^^ ^+ ^* ^# % %% & && | || $ $$ ? ?? ## !! ... |- -| |= =| :> <: @@ :=",
    "::= :: <- -+-> (+) (-) (.) (/) (\\X) <*> <+> \\X \\times \\o \\circ \\div \\cdot \\prec \\preceq",
    "\\succ \\succeq \\ll \\gg \\sim \\simeq \\asymp \\approx \\cong \\doteq \\propto \\wr \\star \\bullet",
    "\\bigcirc \\oplus \\ominus \\otimes \\odot \\oslash \\uplus \\sqcup \\sqcap \\sqsubset \\sqsubseteq",
    "\\sqsupset \\sqsupseteq \\subset \\supset \\supseteq \\AA \\EE INSTANCE RECURSIVE LAMBDA LOCAL",
    "ACTION TEMPORAL MODULE _",
];

#[test]
fn what_is_left_out_of_the_language(rt: HostRuntime) -> Result<(), Fail> {
    let alloc = rt.alloc();
    for line in LEFT_OUT.iter() {
        for sign in line.split(' ') {
            let text = format!(in alloc; "a + {sign} b")?;
            let want = format!(in alloc; "2:5 Unsupported {sign}")?;
            assert!(rt; is_refused(alloc, text.as_str(), want.as_str())?, "{sign}");
        }
    }
    Ok(())
}

/// What opens a nesting and what closes it, how often it stands for 200 nestings, and the column of the fault where it stands
/// once more.
const NESTINGS: [(&str, &str, u64, u64); 26] = [
    ("(", ")", 200, 201),
    ("{", "}", 200, 201),
    ("<<", ">>", 200, 401),
    ("f(", ")", 200, 402),
    ("a[", "]", 200, 402),
    ("[S -> ", "]", 200, 1201),
    ("[h |-> ", "]", 200, 1401),
    ("{x \\in S : ", "}", 200, 2201),
    ("[A]_(", ")", 200, 1001),
    ("WF_v(", ")", 200, 1005),
    ("[f EXCEPT !.h = ", "]", 200, 3201),
    ("[f EXCEPT ![", "] = b]", 100, 1201),
    ("/\\ ", "", 200, 604),
    ("\\A x : ", "", 200, 1408),
    ("CHOOSE x : ", "", 200, 2212),
    ("\\E x \\in ", " : b", 200, 1810),
    ("CHOOSE x \\in ", " : b", 200, 2614),
    ("IF ", " THEN b ELSE c", 200, 604),
    ("IF b THEN ", " ELSE c", 200, 2004),
    ("IF b THEN c ELSE ", "", 200, 3404),
    ("CASE ", " -> b", 200, 1006),
    ("CASE b -> ", "", 200, 2006),
    ("CASE b -> c [] OTHER -> ", "", 200, 4806),
    ("LET x == ", " IN b", 200, 1810),
    ("LET x == b IN ", "", 200, 2810),
    ("LET x(y) == ", " IN b", 200, 2406),
];

/// So many openings, a name and as many closings.
fn nested(alloc: Global, open: &str, close: &str, count: u64) -> Result<String, AllocError> {
    let mut text = String::new(alloc);
    for _ in 0..count {
        text.push_str(open)?;
    }
    text.push('a')?;
    for _ in 0..count {
        text.push_str(close)?;
    }
    Ok(text)
}

#[test]
fn two_hundred_nestings_and_one_more(rt: HostRuntime) -> Result<(), Fail> {
    let alloc = rt.alloc();
    for (open, close, count, column) in NESTINGS.iter() {
        let text = nested(alloc, open, close, *count)?;
        let read = answer(alloc, text.as_str(), &PLAIN)?;
        assert!(rt; read.starts_with(b"3:1 "), "{open}");
        let text = nested(alloc, open, close, count.saturating_add(1))?;
        let want = format!(in alloc; "2:{column} TooDeep")?;
        assert!(rt; is_refused(alloc, text.as_str(), want.as_str())?, "{open}");
    }
    Ok(())
}

/// Texts read from another token, in another region or under nestings: the text, these three, and the answer.
const SETTINGS: [(&str, u64, u64, u64, &str); 13] = [
    ("a = (b)", 2, 0, 0, "3:1 b"),
    ("a", 0, 1, 0, "refused 2:1 Expected"),
    (" a\n+ b", 0, 1, 0, "3:1 a"),
    (" /\\ a\n /\\ b\n/\\ c", 0, 1, 0, "4:1 AND[a b]"),
    ("a", 0, 0, 200, "3:1 a"),
    ("(a)", 0, 0, 199, "3:1 a"),
    ("(a)", 0, 0, 200, "refused 2:1 TooDeep"),
    ("a + f(b)", 0, 0, 200, "refused 2:6 TooDeep"),
    ("\\A x : )", 0, 0, 200, "refused 2:8 Expected"),
    ("\\A x : %", 0, 0, 200, "refused 2:8 TooDeep"),
    ("/\\ (a", 0, 0, 199, "refused 2:4 TooDeep"),
    ("a = b = (c)", 0, 0, 200, "refused 2:7 Precedence"),
    ("[]x'[a]", 0, 0, 200, "refused 2:5 TooDeep"),
];

#[test]
fn regions_and_nestings_of_the_caller(rt: HostRuntime) -> Result<(), Fail> {
    for (text, from, region, depth, want) in SETTINGS.iter() {
        let way = Way {
            from: *from,
            region: *region,
            depth: *depth,
            places: false,
        };
        assert!(rt; is_answered(rt.alloc(), text, &way, want)?, "{text}");
    }
    Ok(())
}
