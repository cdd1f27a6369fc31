// What is promised of the library's calls: the theorems that an auditor reads first, a file for each demand and for each ticket's promise, each
// theorem under the sentence that it proves. There is no code here: a call is what its contract says of it (specs/Calls.antt).
#![tactic(auto)]
