// What holds of the outputs of the subcommands: the buffers of the command have room for them, and each ends as its call answers. No code.
#![tactic(auto)]
