// Eight marked words, each of which the definition of one instruction gives a known result.
ghost use Rattle.std.specs.Prelude.{◌≡◌, map};
ghost use Rattle.machine.specs.Marked.{Marked, rows};

// The words of the table, whose states before and after are in the contract.
#[tactic(auto, unfolding(isa::specs::Opcodes::class_of))]
pub fn marked_words() -> [u32; 8]
    ensures words { result ≡ map (λ m. m.word) rows }
    ensures marked { Marked }
{
    [
        0x1005_03ff,
        0x0101_0203,
        0x0201_0203,
        0x0301_0203,
        0x5000_00fe,
        0x5008_0005,
        0x4000_0000,
        0x4008_0000,
    ]
}
