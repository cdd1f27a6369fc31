// Laws on lists that the kit lacks: text stored in a lent buffer, tables whose rule one test decides. There is no code here.
#![tactic(auto)]
