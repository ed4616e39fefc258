use sm_script::{Form, Shape, Topic, forms};
use std::alloc::{AllocError, Global};

/// The text before the lines in the help on scripts.
const HEAD: &str = "\
The script comes on standard input: a line of settings, and then a command a line.
K is a shard's number, and A and B are servers' numbers. Each line stands with an example.
";

/// The text behind them.
const TAIL: &str = "
Each command has one answer line. An empty line and a line that begins with # have none.

Example:

  {\"version\":1,\"bounds\":[\"\",\"m\"],\"servers\":[{\"id\":1,\"domain\":0,\"capacity\":2}],\
\"groups\":[{\"limit\":2,\"down\":1}],\
\"shards\":[{\"group\":0,\"load\":1,\"cap\":0},{\"group\":0,\"load\":1,\"cap\":1}],\
\"ops\":1,\"kept\":100,\"ceiling\":1000,\"workers\":2}
  assign 1 1
  put m hello
  get m

answers

  ok
  done @1#0
  text 5:hello @1#1

docs/SCRIPT.md of the repository has all settings, commands and answers.";

/// The headings of the lines, in their order.
const TOPICS: [(Topic, &str); 6] = [
    (Topic::Migrations, "Migrations"),
    (Topic::Requests, "Requests"),
    (Topic::Sending, "Requests to a server, and by a route"),
    (Topic::Records, "Records and routes"),
    (Topic::Restarts, "Restarts, failures and plans"),
    (Topic::Load, "Clients at the same time"),
];

/// How many bytes the help has for how a line is written.
const WIDTH: usize = 17;

/// Appends all pieces.
fn push_all(text: &mut String, pieces: &[&str]) -> Result<(), AllocError> {
    for piece in pieces {
        text.push_str(piece)?;
    }
    Ok(())
}

/// Returns the name in the docs for a word of this shape.
fn name_of(shape: Shape) -> &'static str {
    match shape {
        Shape::Shard => "shard",
        Shape::Server => "server",
        Shape::Key => "key",
        Shape::Text => "text",
        Shape::Increment => "number",
        Shape::Limit => "limit",
        Shape::Clients => "clients",
        Shape::Each => "each",
    }
}

/// Appends a line of the help: a line's form, its effect, and an example.
fn push_help(text: &mut String, form: &Form) -> Result<(), AllocError> {
    push_all(text, &["  ", form.name, " ", form.arguments])?;
    for _ in form.name.len().saturating_add(form.arguments.len())..WIDTH {
        text.push_str(" ")?;
    }
    push_all(text, &[" ", form.help, " (", form.example, ")\n"])
}

/// Appends the names of the shapes of the words behind a line's first one.
fn push_shapes(text: &mut String, shapes: &[Shape]) -> Result<(), AllocError> {
    let mut between = "";
    for shape in shapes {
        push_all(text, &[between, name_of(*shape)])?;
        between = ", ";
    }
    Ok(())
}

/// Appends a row of the table of docs/SCRIPT.md.
fn push_row(text: &mut String, form: &Form) -> Result<(), AllocError> {
    let space = if form.arguments.is_empty() { "" } else { " " };
    push_all(text, &["| `", form.name, space, form.arguments, "` | "])?;
    push_shapes(text, form.shapes)?;
    push_all(text, &[" | ", form.help, " | `", form.example, "` |\n"])
}

/// Appends the help's lines of a topic.
fn push_help_of(text: &mut String, topic: Topic) -> Result<(), AllocError> {
    for form in forms() {
        if form.topic == topic {
            push_help(text, form)?;
        }
    }
    Ok(())
}

/// Appends the rows of a topic.
fn push_rows_of(text: &mut String, topic: Topic) -> Result<(), AllocError> {
    for form in forms() {
        if form.topic == topic {
            push_row(text, form)?;
        }
    }
    Ok(())
}

/// Returns the help on scripts.
pub fn script_help(alloc: Global) -> Result<String, AllocError> {
    let mut text = String::new(alloc);
    text.push_str(HEAD)?;
    for (topic, heading) in TOPICS {
        push_all(&mut text, &["\n", heading, ":\n"])?;
        push_help_of(&mut text, topic)?;
    }
    text.push_str(TAIL)?;
    Ok(text)
}

/// Returns the tables of all lines, as docs/SCRIPT.md has them.
pub fn line_tables(alloc: Global) -> Result<String, AllocError> {
    let mut text = String::new(alloc);
    for (topic, heading) in TOPICS {
        let head = "\n\n| line | takes | does | as |\n|---|---|---|---|\n";
        push_all(&mut text, &["### ", heading, head])?;
        push_rows_of(&mut text, topic)?;
        text.push_str("\n")?;
    }
    Ok(text)
}
