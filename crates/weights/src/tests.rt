use crate::{Weight, weigh};
use program::Program;
use program::instruction::{Check, Instruction, Source};
use tokens::{Area, BitCell};

// A condition with both branches, then a call; the greater branch counts.
#[test]
fn a_condition_and_a_call(rt: HostRuntime) {
    let bit = BitCell {
        area: Area::Internal,
        byte: 0,
        bit: 0,
    };
    let load = Instruction::Load(Source::Number(5));
    let code = [
        Instruction::Test(Check::Bit(bit, false), 2),
        load,
        Instruction::Skip(1),
        load,
        Instruction::Call(6),
        Instruction::Return,
        Instruction::Switch(bit, true),
        Instruction::Return,
    ];
    let mut program = Program::empty();
    assert!(rt; program.load(&code, 0, 6).is_ok());
    for (place, figure, chain) in [(0, 7, 1), (6, 2, 0), (8, 1, 0), (65535, 1, 0)] {
        assert_eq!(rt; weigh(&program, place), Weight { figure, chain });
    }
}

// 682 modules, each of which calls the next one twice.
fn doubled() -> [Instruction; 2048] {
    let mut code = [Instruction::Return; 2048];
    for (module, next) in code.chunks_exact_mut(3).zip((3u16..2049).step_by(3)) {
        if let [first, second, _] = module {
            *first = Instruction::Call(next);
            *second = Instruction::Call(next);
        }
    }
    code
}

#[test]
fn doubled_calls(rt: HostRuntime) {
    let mut program = Program::empty();
    assert!(rt; program.load(&doubled(), 0, 2046).is_ok());
    for (place, figure, chain) in [(2043, 5, 1), (2019, 2045, 9), (0, 60001, 9)] {
        assert_eq!(rt; weigh(&program, place), Weight { figure, chain });
    }
}
