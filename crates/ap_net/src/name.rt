ghost use Rattle.std.specs.Prelude.{◌≡◌, ◌<◌, ◌^◌, IfOk};
ghost use Rattle.ap_net.specs.Names.{IsNetName, numbered};

use crate::NoMemory;
use std::alloc::Global;
use std::marker::Model;

/// A name of the Verilog subset: a letter followed by letters, digits and `_`, at most 100 bytes, and none of the words
/// `module endmodule input output wire reg assign always posedge if else`. Contracts see its bytes.
#[derive(Drop)]
pub struct NetName {
    text: String,
}

impl Model for NetName {
    ghost use Rattle.std.specs.Prelude.{List, ℕ};
    ghost use Rattle.std.specs.String.{string_bytes};
    ghost use Rattle.ap_net.specs.Names.{IsNetName};

    ghost Value = { List ℕ };

    ghost view = { λ n. string_bytes n.text };

    ghost invariant = { λ n. IsNetName (string_bytes n.text) };
}

impl NetName {
    /// The name of these bytes.
    pub fn new(alloc: Global, name: &[u8]) -> Result<NetName, NoMemory>
        requires { IsNetName name.now }
        ensures same { IfOk result (λ made. made ≡ name.now) }
    {
        let text = std::str::from_utf8(name).unwrap();
        let text = String::from_str(alloc, text)?;
        Ok(NetName { text })
    }

    /// The letter n and a decimal number.
    pub fn numbered(alloc: Global, number: usize) -> Result<NetName, NoMemory>
        ensures same { IfOk result (λ made. made ≡ numbered number) }
        ensures is_name { IfOk result IsNetName }
    {
        let text = format!(in alloc; "n{number}")?;
        Ok(NetName { text })
    }

    /// The name once more.
    pub fn copy(&self, alloc: Global) -> Result<NetName, NoMemory>
        ensures { IfOk result (λ made. made ≡ self.now) }
    {
        let text = String::from_str(alloc, self.text.as_str())?;
        Ok(NetName { text })
    }

    /// The name as text.
    pub fn as_str(&self) -> &str
        ensures { result.now ≡ self.now }
    {
        self.text.as_str()
    }
}
