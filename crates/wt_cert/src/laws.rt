// The laws of certificates: what is read is spelled so, and what is spelled so is read; and which chains have one.
ghost use Rattle.std.specs.Prelude.{◌≡◌, ℕ, List, None, Ok};
ghost use Rattle.std.specs.List.{All};
ghost use Rattle.wt_tile.specs.Names.{IsName};
ghost use Rattle.wt_tile.specs.declared.tile.TileList.{TileList};
ghost use Rattle.wt_chain.specs.Faults.{chain_fault};
ghost use Rattle.wt_chain.specs.Limits.{IsWithinLimits};
ghost use Rattle.wt_chain.specs.Sets.{BeginsWith};
ghost use Rattle.wt_chain.specs.declared.raw.RawChain.{RawChain};
ghost use Rattle.wt_text.specs.Lines.{lines, bytes_of};
ghost use Rattle.wt_text.specs.Readers.{whole_text};
ghost use Rattle.wt_cert.specs.Fits.{IsWritable};
ghost use Rattle.wt_cert.specs.Parts.{cert_part};
ghost use Rattle.wt_cert.specs.Spelling.{cert_lines};

/// Bytes are read as a chain exactly where they are the certificate of that chain and it is within the limits
/// of a text: each such chain has one certificate, and reading it gives the chain back.
pub fn certificates_are_exact()
    ensures found { (bytes : List ℕ) (c : RawChain) → whole_text cert_part (lines bytes) ≡ Ok c → (bytes ≡ bytes_of (cert_lines c)) × IsWritable c }
    ensures again { (c : RawChain) → IsWritable c → whole_text cert_part (lines (bytes_of (cert_lines c))) ≡ Ok c }
{}

/// A good chain within the limits has a certificate, where each name of its first set has the form of one: each of
/// its lists of tiles is a tile set, and is numbered as a text numbers it.
pub fn good_chains_have_texts()
    ensures { (set : TileList) (c : RawChain) → chain_fault c ≡ None → BeginsWith set c.steps
        → All IsName set.names1 → All IsName set.names2 → IsWithinLimits c → IsWritable c }
{}
