// The commands of a list as they are written, one for each instruction.
use faults::Place;
use reading::Placed;
use reporting::excerpt::Excerpt;
use std::alloc::{AllocError, Global};
use std::fmt::Write;
use tokens::Token;

// A command as it is written, and where it stands.
#[derive(Drop)]
pub(crate) struct Written {
    pub(crate) words: String,
    pub(crate) place: Place,
}

// The commands of the tokens, in the order of their instructions.
pub(crate) fn commands_of(heap: Global, tokens: &[Placed]) -> Result<Vec<Written>, AllocError> {
    let mut commands = Vec::new(heap);
    let mut begun: Option<Written> = None;
    for placed in tokens {
        let mut command = begun.take().unwrap_or_else(|| Written {
            words: String::new(heap),
            place: placed.place,
        });
        write!(command.words, "{}", Excerpt(placed.token.part()))?;
        match placed.token {
            // These are part of the instruction of their operand.
            Token::Operator(..) | Token::Comparison(..) => {
                command.words.push(' ')?;
                begun = Some(command);
            }
            // These have no instruction.
            Token::EndIf(_) | Token::Label(..) => {}
            _ => commands.push(command)?,
        }
    }
    Ok(commands)
}
