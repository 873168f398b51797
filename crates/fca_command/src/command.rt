//! The command that the words of the command line are.

ghost use Rattle.std.specs.Prelude.{◌≡◌, IfOk, IfSome, option_copied};
ghost use Rattle.std.specs.List.{list_all};
ghost use Rattle.std.specs.Str.{is_utf8};
ghost use Rattle.fca_command.specs.Commands.{command_form, text_command, named_command, over_file, file_command, table_command};
ghost use Rattle.fca_command.specs.Commands.{further_files_command};
ghost use Rattle.fca_command.specs.Commands.{concepts_call, lattice_call, basis_call, direct_call, follows_call, wants_json};
ghost use Rattle.fca_command.specs.Commands.{convert_call, form_of, reduce_call, arrows_call, scale_call, make_call};
ghost use Rattle.fca_command.specs.Commands.{survey_call};
ghost use Rattle.fca_command.specs.Commands.{replay_call, explore_call, serve_call, report_file, files_of, first_file_of};
ghost use Rattle.fca_command.specs.Commands.{waits_for_nobody, IsWithinLimits};

use crate::experts::{expert_count, experts_of};
use crate::flags::{copy_word, serving_of, split_known, split_names};
use crate::recipe::recipe_of;
use crate::words::Words;
use fca_model::{MAX_ATTRIBUTES, MAX_SURVEYED, Memory, Word};
use std::alloc::Global;

/// A form of tables.
#[derive(Clone, Copy)]
pub enum Form {
    /// The Burmeister form.
    Cxt,
    /// Comma-separated values.
    Csv,
}

/// A command, with the values that its words give. It reads its table from `file`, and from `known`, if one is given, what is known of that
/// table beforehand.
#[derive(Drop)]
pub enum Command {
    /// The concepts of the table, as JSON if that is asked for.
    Concepts {
        file: Word,
        json: bool,
    },
    /// The concepts of the table and their covers.
    Lattice {
        file: Word,
    },
    /// The canonical basis of the table, as JSON if that is asked for.
    Basis {
        file: Word,
        json: bool,
    },
    /// The direct basis of the table.
    Direct {
        file: Word,
    },
    /// Whether the attributes that `premise` names imply those that `conclusion` names.
    Follows {
        file: Word,
        premise: Word,
        conclusion: Word,
    },
    /// The table in another form.
    Convert {
        file: Word,
        to: Form,
    },
    /// The table of its irreducible objects and attributes.
    Reduce {
        file: Word,
    },
    /// The arrows between the objects and the attributes of the table.
    Arrows {
        file: Word,
    },
    /// The table that the plan makes of the values.
    Scale {
        values: Word,
        plan: Word,
    },
    /// The exploration of the table by the script on the input.
    Replay {
        file: Word,
        known: Option<Word>,
    },
    /// The exploration of the table by oracles of the tables in the files `experts`. With `names`, each is named by the word of its file.
    Explore {
        file: Word,
        known: Option<Word>,
        names: bool,
        experts: Words,
    },
    /// The exploration of the table by experts who come to the address `listen`. At most `holders` of them may hold one question.
    Serve {
        file: Word,
        known: Option<Word>,
        experts: u8,
        holders: u8,
        listen: Word,
    },
    /// The table that a recipe makes.
    Make {
        seed: u64,
        objects: u32,
        attributes: u32,
        density: u8,
    },
    /// What is counted of the table that a recipe makes, and of its exploration by so many oracles of it.
    Survey {
        seed: u64,
        objects: u32,
        attributes: u32,
        density: u8,
        experts: u8,
    },
}

impl Command {
    /// The file of the table that the command reports on, if it writes a text about one table and does nothing else.
    pub fn report_file(&self) -> Option<&Word>
        ensures { option_copied result ≡ report_file self.now }
    {
        match self {
            Command::Concepts { file, .. }
            | Command::Lattice { file }
            | Command::Basis { file, .. }
            | Command::Direct { file }
            | Command::Follows { file, .. }
            | Command::Convert { file, .. }
            | Command::Reduce { file }
            | Command::Arrows { file } => Some(file),
            _ => None,
        }
    }

    /// Whether the command waits for nobody.
    pub fn waits_for_nobody(&self) -> bool
        ensures { result ≡ waits_for_nobody self.now }
    {
        match self {
            Command::Explore { .. } | Command::Serve { .. } | Command::Survey { .. } => false,
            _ => true,
        }
    }

    /// The name of the file that the command reads first, or an empty name if it reads none.
    pub fn first_file(&self) -> &[u8]
        ensures { result.now ≡ first_file_of (files_of self.now) }
    {
        match self {
            Command::Concepts { file, .. }
            | Command::Lattice { file }
            | Command::Basis { file, .. }
            | Command::Direct { file }
            | Command::Follows { file, .. }
            | Command::Convert { file, .. }
            | Command::Reduce { file }
            | Command::Arrows { file }
            | Command::Replay { file, .. }
            | Command::Explore { file, .. }
            | Command::Serve { file, .. } => file.bytes(),
            Command::Scale { values, .. } => values.bytes(),
            Command::Make { .. } | Command::Survey { .. } => b"",
        }
    }
}

/// The command that the words are, if they are one.
pub fn command_of(alloc: Global, words: &[Word]) -> Result<Option<Command>, Memory>
    ensures command { IfOk result (λ command. command ≡ command_form words.now) }
    ensures limits { IfOk result (λ command. IfSome command IsWithinLimits) }
{
    if !are_text(words) {
        return Ok(None);
    }
    text_command(alloc, words)
}

fn are_text(words: &[Word]) -> bool
    ensures { result ≡ list_all is_utf8 words.now }
{
    words.iter().all(is_text)
}

fn is_text(word: &Word) -> bool
    ensures { result ≡ is_utf8 word.now }
{
    str::from_utf8(word.bytes()).is_ok()
}

/// The command that the words are, if they are one. Each word is text.
fn text_command(alloc: Global, words: &[Word]) -> Result<Option<Command>, Memory>
    ensures command { IfOk result (λ command. command ≡ text_command words.now) }
    ensures limits { IfOk result (λ command. IfSome command IsWithinLimits) }
{
    match words {
        [name, later @ ..] => named_command(alloc, name.bytes(), later),
        [] => Ok(None),
    }
}

/// The command of this name, by the words after it.
fn named_command(alloc: Global, name: &[u8], later: &[Word]) -> Result<Option<Command>, Memory>
    ensures command { IfOk result (λ command. command ≡ named_command name.now later.now) }
    ensures limits { IfOk result (λ command. IfSome command IsWithinLimits) }
{
    if name == b"make".as_slice() {
        Ok(make_call(later))
    } else if name == b"survey".as_slice() {
        Ok(survey_call(later))
    } else {
        over_file(alloc, name, later)
    }
}

fn make_call(later: &[Word]) -> Option<Command>
    ensures command { result ≡ make_call later.now }
    ensures limits { IfSome result IsWithinLimits }
{
    let [seed, objects, attributes, density] = later else {
        return None;
    };
    let recipe = recipe_of(MAX_ATTRIBUTES, seed, objects, attributes, density)?;
    Some(Command::Make {
        seed: recipe.seed,
        objects: recipe.objects,
        attributes: recipe.attributes,
        density: recipe.density,
    })
}

fn survey_call(later: &[Word]) -> Option<Command>
    ensures command { result ≡ survey_call later.now }
    ensures limits { IfSome result IsWithinLimits }
{
    let [seed, objects, attributes, density, experts] = later else {
        return None;
    };
    let recipe = recipe_of(MAX_SURVEYED, seed, objects, attributes, density)?;
    let experts = expert_count(experts.bytes())?;
    Some(Command::Survey {
        seed: recipe.seed,
        objects: recipe.objects,
        attributes: recipe.attributes,
        density: recipe.density,
        experts,
    })
}

/// The command of this name over the file that the next word names.
fn over_file(alloc: Global, name: &[u8], words: &[Word]) -> Result<Option<Command>, Memory>
    ensures command { IfOk result (λ command. command ≡ over_file name.now words.now) }
    ensures limits { IfOk result (λ command. IfSome command IsWithinLimits) }
{
    match words {
        [file, later @ ..] => file_command(alloc, name, file, later),
        [] => Ok(None),
    }
}

/// The command of this name over the file, by the words after it.
fn file_command(
    alloc: Global,
    name: &[u8],
    file: &Word,
    later: &[Word],
) -> Result<Option<Command>, Memory>
    ensures command { IfOk result (λ command. command ≡ file_command name.now file.now later.now) }
    ensures limits { IfOk result (λ command. IfSome command IsWithinLimits) }
{
    if file.bytes().is_empty() {
        return Ok(None);
    }
    let file = Word::new(alloc, file.bytes())?;
    if name == b"concepts".as_slice() {
        Ok(concepts_call(file, later))
    } else if name == b"lattice".as_slice() {
        Ok(lattice_call(file, later))
    } else if name == b"basis".as_slice() {
        Ok(basis_call(file, later))
    } else if name == b"direct".as_slice() {
        Ok(direct_call(file, later))
    } else {
        table_command(alloc, name, file, later)
    }
}

/// The other commands about one table.
fn table_command(
    alloc: Global,
    name: &[u8],
    file: Word,
    later: &[Word],
) -> Result<Option<Command>, Memory>
    ensures command { IfOk result (λ command. command ≡ table_command name.now file later.now) }
    ensures limits { IfOk result (λ command. IfSome command IsWithinLimits) }
{
    if name == b"follows".as_slice() {
        follows_call(alloc, file, later)
    } else if name == b"convert".as_slice() {
        Ok(convert_call(file, later))
    } else if name == b"reduce".as_slice() {
        Ok(reduce_call(file, later))
    } else if name == b"arrows".as_slice() {
        Ok(arrows_call(file, later))
    } else {
        further_files_command(alloc, name, file, later)
    }
}

/// The commands that read more than the table.
fn further_files_command(
    alloc: Global,
    name: &[u8],
    file: Word,
    later: &[Word],
) -> Result<Option<Command>, Memory>
    ensures command { IfOk result (λ command. command ≡ further_files_command name.now file later.now) }
    ensures limits { IfOk result (λ command. IfSome command IsWithinLimits) }
{
    if name == b"scale".as_slice() {
        scale_call(alloc, file, later)
    } else if name == b"replay".as_slice() {
        replay_call(alloc, file, later)
    } else if name == b"explore".as_slice() {
        explore_call(alloc, file, later)
    } else if name == b"serve".as_slice() {
        serve_call(alloc, file, later)
    } else {
        Ok(None)
    }
}

fn concepts_call(file: Word, later: &[Word]) -> Option<Command>
    ensures command { result ≡ concepts_call file later.now }
    ensures limits { IfSome result IsWithinLimits }
{
    let json = wants_json(later)?;
    Some(Command::Concepts { file, json })
}

fn lattice_call(file: Word, later: &[Word]) -> Option<Command>
    ensures command { result ≡ lattice_call file later.now }
    ensures limits { IfSome result IsWithinLimits }
{
    match later {
        [] => Some(Command::Lattice { file }),
        _ => None,
    }
}

fn basis_call(file: Word, later: &[Word]) -> Option<Command>
    ensures command { result ≡ basis_call file later.now }
    ensures limits { IfSome result IsWithinLimits }
{
    let json = wants_json(later)?;
    Some(Command::Basis { file, json })
}

/// Whether the words ask for JSON. No word says no, `--json` says yes, and other words are refused.
fn wants_json(words: &[Word]) -> Option<bool>
    ensures { result ≡ wants_json words.now }
{
    match words {
        [] => Some(false),
        [word] if word.bytes() == b"--json".as_slice() => Some(true),
        _ => None,
    }
}

fn direct_call(file: Word, later: &[Word]) -> Option<Command>
    ensures command { result ≡ direct_call file later.now }
    ensures limits { IfSome result IsWithinLimits }
{
    match later {
        [] => Some(Command::Direct { file }),
        _ => None,
    }
}

fn follows_call(alloc: Global, file: Word, later: &[Word]) -> Result<Option<Command>, Memory>
    ensures command { IfOk result (λ command. command ≡ follows_call file later.now) }
    ensures limits { IfOk result (λ command. IfSome command IsWithinLimits) }
{
    let [premise, conclusion] = later else {
        return Ok(None);
    };
    let premise = Word::new(alloc, premise.bytes())?;
    let conclusion = Word::new(alloc, conclusion.bytes())?;
    Ok(Some(Command::Follows {
        file,
        premise,
        conclusion,
    }))
}

fn convert_call(file: Word, later: &[Word]) -> Option<Command>
    ensures command { result ≡ convert_call file later.now }
    ensures limits { IfSome result IsWithinLimits }
{
    let [word] = later else {
        return None;
    };
    let to = form_of(word.bytes())?;
    Some(Command::Convert { file, to })
}

/// The form that the word names.
fn form_of(word: &[u8]) -> Option<Form>
    ensures { result ≡ form_of word.now }
{
    if word == b"cxt".as_slice() {
        Some(Form::Cxt)
    } else if word == b"csv".as_slice() {
        Some(Form::Csv)
    } else {
        None
    }
}

fn reduce_call(file: Word, later: &[Word]) -> Option<Command>
    ensures command { result ≡ reduce_call file later.now }
    ensures limits { IfSome result IsWithinLimits }
{
    match later {
        [] => Some(Command::Reduce { file }),
        _ => None,
    }
}

fn arrows_call(file: Word, later: &[Word]) -> Option<Command>
    ensures command { result ≡ arrows_call file later.now }
    ensures limits { IfSome result IsWithinLimits }
{
    match later {
        [] => Some(Command::Arrows { file }),
        _ => None,
    }
}

fn scale_call(alloc: Global, file: Word, later: &[Word]) -> Result<Option<Command>, Memory>
    ensures command { IfOk result (λ command. command ≡ scale_call file later.now) }
    ensures limits { IfOk result (λ command. IfSome command IsWithinLimits) }
{
    let [plan] = later else {
        return Ok(None);
    };
    if plan.bytes().is_empty() {
        return Ok(None);
    }
    let plan = Word::new(alloc, plan.bytes())?;
    Ok(Some(Command::Scale { values: file, plan }))
}

fn replay_call(alloc: Global, file: Word, later: &[Word]) -> Result<Option<Command>, Memory>
    ensures command { IfOk result (λ command. command ≡ replay_call file later.now) }
    ensures limits { IfOk result (λ command. IfSome command IsWithinLimits) }
{
    let (known, rest) = split_known(later);
    if !rest.is_empty() {
        return Ok(None);
    }
    let known = copy_word(alloc, known)?;
    Ok(Some(Command::Replay { file, known }))
}

fn explore_call(alloc: Global, file: Word, later: &[Word]) -> Result<Option<Command>, Memory>
    ensures command { IfOk result (λ command. command ≡ explore_call file later.now) }
    ensures limits { IfOk result (λ command. IfSome command IsWithinLimits) }
{
    let (known, rest) = split_known(later);
    let (names, rest) = split_names(rest);
    let Some(experts) = experts_of(alloc, rest)? else {
        return Ok(None);
    };
    let known = copy_word(alloc, known)?;
    Ok(Some(Command::Explore {
        file,
        known,
        names,
        experts,
    }))
}

fn serve_call(alloc: Global, file: Word, later: &[Word]) -> Result<Option<Command>, Memory>
    ensures command { IfOk result (λ command. command ≡ serve_call file later.now) }
    ensures limits { IfOk result (λ command. IfSome command IsWithinLimits) }
{
    let (known, rest) = split_known(later);
    let Some((experts, holders, address)) = serving_of(rest) else {
        return Ok(None);
    };
    let known = copy_word(alloc, known)?;
    let listen = Word::new(alloc, address.bytes())?;
    Ok(Some(Command::Serve {
        file,
        known,
        experts,
        holders,
        listen,
    }))
}
