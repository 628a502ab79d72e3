ghost use Rattle.worked.specs.Examples.{Worked};

// The network file of one tip and one cable, of which all the worked examples speak.
pub fn berm_file() -> [u8; 36]
    ensures { Worked result }
{
    *b"\x01\x01\x02\x01\x02\x03TIP     \x02\x02CABLE   \x03\x00\x01\x04\x00\x00\x04\x01\x01\x05\x00\x02"
}
