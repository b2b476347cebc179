// A panel whose input words and answering flags are set by hand.
ghost use Rattle.std.specs.Prelude.{◌≡◌, Ok, cond, length, nat_lt, slice_set};
ghost use Rattle.panel.specs.Answers.{for_word};

use crate::{Panel, PanelFault, check_answers, word_index};

// An array of words and one of flags, and not one of pairs: `inputs`, `outputs`, `answering_inputs` and `answering_outputs` lend them.
#[derive(Drop)]
pub struct Bench {
    inputs: [u16; 8],
    outputs: [u16; 8],
    input_answers: [bool; 8],
    output_answers: [bool; 8],
    ghost sized: { (length inputs ≡ 8) × (length outputs ≡ 8) × (length input_answers ≡ 8) × (length output_answers ≡ 8) },
}

// Sets one of eight words or flags.
fn set_at<T: Copy>(all: &mut [T; 8], word: u8, value: T) -> Result<(), PanelFault>
    ensures answer { result ≡ for_word word (Ok tt) }
    ensures after { all.new ≡ cond (nat_lt word 8) (slice_set all.old word value) all.old }
{
    all[word_index(word)?] = value;
    Ok(())
}

impl Bench {
    ghost use Rattle.panel.specs.Bench.{bench_meaning, fresh, set_answer, with_input, with_input_answer, with_output_answer, when_word};

    // All words 0, all answering.
    pub fn new() -> Self
        ensures { bench_meaning result ≡ fresh }
    {
        Bench {
            inputs: [0; 8],
            outputs: [0; 8],
            input_answers: [true; 8],
            output_answers: [true; 8],
        }
    }

    // Sets an input word, whether it answers or not.
    pub fn set_input(&mut self, word: u8, value: u16) -> Result<(), PanelFault>
        ensures answer { result ≡ set_answer word }
        ensures after { bench_meaning self.new ≡ when_word word (with_input (bench_meaning self.old) word value) (bench_meaning self.old) }
    {
        set_at(&mut self.inputs, word, value)
    }

    // Sets whether an input answers. Its word is kept.
    pub fn set_input_answers(&mut self, word: u8, answers: bool) -> Result<(), PanelFault>
        ensures answer { result ≡ set_answer word }
        ensures after { bench_meaning self.new ≡ when_word word (with_input_answer (bench_meaning self.old) word answers) (bench_meaning self.old) }
    {
        set_at(&mut self.input_answers, word, answers)
    }

    // Sets whether an output answers. Its word is kept.
    pub fn set_output_answers(&mut self, word: u8, answers: bool) -> Result<(), PanelFault>
        ensures answer { result ≡ set_answer word }
        ensures after { bench_meaning self.new ≡ when_word word (with_output_answer (bench_meaning self.old) word answers) (bench_meaning self.old) }
    {
        set_at(&mut self.output_answers, word, answers)
    }

    // The input words, silent ones too.
    pub fn inputs(&self) -> &[u16; 8]
        ensures { result.now ≡ (bench_meaning self.now).inputs }
    {
        &self.inputs
    }

    // The output words, silent ones too.
    pub fn outputs(&self) -> &[u16; 8]
        ensures { result.now ≡ (bench_meaning self.now).outputs }
    {
        &self.outputs
    }

    // Which inputs answer.
    pub fn answering_inputs(&self) -> &[bool; 8]
        ensures { result.now ≡ (bench_meaning self.now).input_answers }
    {
        &self.input_answers
    }

    // Which outputs answer.
    pub fn answering_outputs(&self) -> &[bool; 8]
        ensures { result.now ≡ (bench_meaning self.now).output_answers }
    {
        &self.output_answers
    }
}

impl Panel for Bench {
    ghost use Rattle.panel.specs.Bench.{bench_meaning, sized_bench};

    ghost meaning = { bench_meaning };

    ghost sized = { sized_bench };

    fn read(&mut self, word: u8) -> Result<u16, PanelFault> {
        let at = word_index(word)?;
        check_answers(word, self.input_answers[at])?;
        Ok(self.inputs[at])
    }

    fn put(&mut self, word: u8, value: u16) -> Result<(), PanelFault> {
        let at = word_index(word)?;
        check_answers(word, self.output_answers[at])?;
        self.outputs[at] = value;
        Ok(())
    }
}
