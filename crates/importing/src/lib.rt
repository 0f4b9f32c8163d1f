// Importing a text of libsvm's line form as a training file, after document 02, request (c). The public call is `import` of `import`. It may
// use `integers`, `buffer`, `training_file`, `written_file` and `libsvm_text`, and `chain`, `reading` and `text` for its laws alone.
#![tactic(auto)]

pub mod import;
mod passes;
