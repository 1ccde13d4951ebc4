ghost use Rattle.std.specs.Prelude.{◌≡◌};
ghost use Rattle.selfrun_files.specs.Source.{source_text};

/// The name of the file with the text of the design.
pub const SOURCE_NAME: &str = "selfrun.v";

/// The name of the file with the dump.
pub const DUMP_NAME: &str = "selfrun.vcd";

/// The text of the design.
const SOURCE: &[u8] =
    b"module selfrun(input clk, input we, input [3:0] a, input [7:0] d, output reg [7:0] q);
  reg [7:0] m [0:15];
  reg [7:0] p;
  always @(posedge clk) begin
    p <= d;
    if (we) m[a] <= p; else q <= m[a];
  end
endmodule
";

/// The text of the design.
pub(crate) fn source() -> &'static [u8]
    ensures { result.now ≡ source_text }
{
    SOURCE
}
