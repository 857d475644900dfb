// A rule for people to read: its types by name, its term as words and as a tree.
use crate::failure::Failure;
use crate::rule::Rule;
use crate::words::NodeWord;
use calculus::entry::Entry;
use calculus::form::Form;
use calculus::kind::Kind;
use calculus::node::Node;
use std::alloc::{AllocError, Global};
use std::fmt;

// A part of a type with a longer name is shown by its number.
const LONGEST_PART: usize = 40;
// Deeper nodes are indented no further, and have their depth written.
const DEEPEST_INDENT: usize = 40;

// The rule's counts, types, words and tree, a line for each type and each node.
pub fn description(heap: Global, rule: &Rule) -> Result<String, Failure> {
    let names = type_names(heap, rule.types.as_slice())?;
    let mut text = String::new(heap);
    let (nodes, types) = (rule.nodes.len(), rule.types.len());
    writeln!(text, "{nodes} nodes, {types} types\ntypes:")?;
    for (number, name) in names.iter().enumerate() {
        writeln!(text, "  {number}: {name}")?;
    }
    let words = Words(rule.nodes.as_slice());
    writeln!(text, "term:\n {words}\ntree:")?;
    add_tree(heap, &mut text, rule.nodes.as_slice(), names.as_slice())?;
    Ok(text)
}

// The name of each type of a table, in terms of the names before it.
fn type_names(heap: Global, entries: &[Entry]) -> Result<Vec<String>, AllocError> {
    let mut names = Vec::new(heap);
    for entry in entries {
        let name = type_name(heap, names.as_slice(), *entry)?;
        names.push(name)?;
    }
    Ok(names)
}

fn type_name(heap: Global, names: &[String], entry: Entry) -> Result<String, AllocError> {
    let sign = match entry.form {
        Form::Blank => return String::from_str(heap, "blank"),
        Form::Nat => return String::from_str(heap, "nat"),
        Form::Unit => return String::from_str(heap, "unit"),
        Form::Void => return String::from_str(heap, "void"),
        Form::Function => "->",
        Form::Product => "*",
        Form::Sum => "+",
    };
    let left = part_name(heap, names, entry.left)?;
    let right = part_name(heap, names, entry.right)?;
    format!(in heap; "{left} {sign} {right}")
}

// The name of a type as a part of another: in parentheses where it is joined itself, and by number where it is long.
fn part_name(heap: Global, names: &[String], number: u16) -> Result<String, AllocError> {
    match names.get(usize::from(number)) {
        Some(name) if name.len() > LONGEST_PART => format!(in heap; "#{number}"),
        Some(name) if name.as_str().contains(' ') => format!(in heap; "({name})"),
        Some(name) => name.clone(),
        None => format!(in heap; "#{number}"),
    }
}

// Nodes shown as words, a space before each.
#[derive(Clone, Copy)]
pub struct Words<'a>(pub &'a [Node]);

impl fmt::Display for Words<'_> {
    fn fmt<W: fmt::Write>(&self, f: &mut fmt::Formatter<W>) -> fmt::Result {
        for node in self.0 {
            write!(f, " {}", NodeWord(*node))?;
        }
        Ok(())
    }
}

// Adds a line for each node: its place, its word below its parent's, and what it is.
fn add_tree(
    heap: Global,
    text: &mut String,
    nodes: &[Node],
    names: &[String],
) -> Result<(), Failure> {
    // the depths of the nodes that are still to come, the next one last
    let mut depths = vec![in heap; 0usize; 1]?;
    for (place, node) in nodes.iter().enumerate() {
        let depth = depths.pop().unwrap_or(0);
        let indent = Indent(depth);
        let (word, meaning) = (NodeWord(*node), meaning(node.kind));
        match type_in(*node, names) {
            Some(name) => writeln!(text, "{place:>5}  {indent}{word}  {meaning} {name}")?,
            None => writeln!(text, "{place:>5}  {indent}{word}  {meaning}")?,
        }
        let open = depths.len().saturating_add(node.kind.children());
        depths.resize(open, depth.saturating_add(1))?;
    }
    Ok(())
}

#[derive(Clone, Copy)]
struct Indent(usize);

impl fmt::Display for Indent {
    fn fmt<W: fmt::Write>(&self, f: &mut fmt::Formatter<W>) -> fmt::Result {
        let depth = self.0;
        f.write_repeated("  ", depth.min(DEEPEST_INDENT))?;
        if depth > DEEPEST_INDENT {
            write!(f, "[{depth}] ")?;
        }
        Ok(())
    }
}

// The name of the type that a node has as its number.
fn type_in<'a>(node: Node, names: &'a [String]) -> Option<&'a str> {
    match node.kind {
        Kind::Lambda | Kind::Abort | Kind::Inl | Kind::Inr => names
            .get(usize::from(node.number))
            .map(|name| name.as_str()),
        _ => None,
    }
}

// What a node of this kind is; a type follows where the kind has one.
fn meaning(kind: Kind) -> &'static str {
    match kind {
        Kind::Blank => "blank",
        Kind::Variable => "variable",
        Kind::Zero => "zero",
        Kind::Successor => "successor",
        Kind::Rec => "recursion",
        Kind::Lambda => "function of",
        Kind::Apply => "application",
        Kind::Triv => "unit value",
        Kind::Pair => "pair",
        Kind::Fst => "first of a pair",
        Kind::Snd => "second of a pair",
        Kind::Abort => "abort to",
        Kind::Inl => "left, with right side",
        Kind::Inr => "right, with left side",
        Kind::Case => "case",
        Kind::Query => "query",
    }
}
