// The worked case of the file, proved of the definitions.
ghost use Rattle.std.specs.Prelude.{◌≡◌, length};
ghost use Rattle.archive.specs.Cases.{figures, listed, ended};
ghost use Rattle.archive.specs.File.{file, file_length};

// How long the file of the worked case is; its bytes are the listed ones.
pub fn worked_file() -> usize
    ensures listed { file figures ≡ ended listed }
    ensures length { result ≡ length (file figures) }
    ensures formula { result ≡ file_length 3 1 }
{
    201
}
